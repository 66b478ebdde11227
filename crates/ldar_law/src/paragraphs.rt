ghost use Rattle.std.specs.Prelude.{◌≡◌, ◌≤◌};
ghost use Rattle.ldar_law.specs.Verdicts.{paragraph_of};

/// The paragraph that a denial by a rule from 1 to 21 names: of 40 CFR 60, or P1 to P6 for our own rules.
pub fn paragraph(rule: u8) -> &'static str
    requires first { 1 ≤ rule }
    requires last { rule ≤ 21 }
    ensures value { result.now ≡ paragraph_of rule }
{
    match rule {
        1 => "60.486a(e)(1)",
        2 => "60.482-1a(d)",
        3 => "60.482-1a(e)",
        4 => "60.486a(a)(3)",
        5 => "60.482-2a(a)(2)",
        6 => "60.482-3a(f)",
        7 => "60.482-4a(b)",
        8 => "60.482-8a(a)",
        9 => "60.482-9a(c)",
        10 => "60.482-9a(d)",
        11 => "60.482-9a(e)",
        12 => "60.486a(c)(6)",
        13 => "60.486a(c)(7)",
        14 => "60.487a(d)",
        15 => "60.482-7a(h)(2)(ii)",
        16 => "P1",
        17 => "P2",
        18 => "P3",
        19 => "P4",
        20 => "P5",
        _ => "P6",
    }
}
