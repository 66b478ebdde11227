//! The first and the last line of a view's text.

ghost use Rattle.std.specs.Prelude.{◌≡◌, ◌++◌, IfOk, OnOk, codes, string_bytes};
ghost use Rattle.std.specs.Fmt.{decimal};
ghost use Rattle.ldar_days.specs.Texts.{day_text};
ghost use Rattle.ldar_law.specs.Texts.{end_line, end_of_line};

use fact_kinds::Memory;
use ldar_days::Day;
use ldar_law::Text;
use std::alloc::Global;

/// A text with the first line of a view: the view's name, the process unit and the day.
pub fn begun(alloc: Global, view: &str, unit: u16, day: Day) -> Result<String, Memory>
    ensures value { IfOk result (λ text. string_bytes text
        ≡ view.now ++ codes " " ++ decimal unit ++ codes " " ++ day_text day ++ end_of_line) }
{
    format!(in alloc; "{view} {unit} {day}\n")
}

/// Appends the last line, which has the number of lines between the first line and it.
pub fn put_end(text: &mut String, lines: usize) -> Result<(), Memory>
    ensures value { OnOk result (string_bytes text.new ≡ string_bytes text.old ++ end_line lines) }
{
    write!(text, "end {lines}\n")
}

/// The text with these bytes. It allocates nothing.
pub fn shown(text: String) -> Text
    ensures value { result ≡ string_bytes text }
{
    Text::new(text.into_bytes())
}
