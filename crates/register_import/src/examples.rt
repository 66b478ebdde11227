//! Worked examples of the definitions: the contracts of empty functions, each clause proved by computing.
#![tactic(auto, unfolding(csv::specs::Records::field_at, ldar_days::specs::Calendar::first_day, ldar_days::specs::Calendar::month_of, ldar_days::specs::Calendar::month_length, ldar_days::specs::Texts::day_of, csv_rows::specs::Fields::number, crate::specs::Fields::flag, crate::specs::Fields::kind, crate::specs::Fields::service, crate::specs::Fields::designation, crate::specs::Fields::class, csv_rows::specs::Fields::day, crate::specs::ComponentRows::component_of, crate::specs::Members::unit_number, crate::specs::Members::flag, crate::specs::Members::day, crate::specs::Members::name, crate::specs::UnitRows::unit_of, crate::specs::Units::elements_of))]

ghost use Rattle.std.specs.Prelude.{◌≡◌, ◌++◌, ◌∷◌, [], Err, None, Ok, Some, codes, false, length, map, negsuc, pos, replicate, take, true};
ghost use Rattle.toml.specs.Data.{array, boolean, integer, item, member, no_items, no_members, string, table};
ghost use Rattle.fact_kinds.specs.declared.class.Designation.TheVariants.{Difficult, Nde, Plain, Unsafe};
ghost use Rattle.register_import.specs.Batches.{batches_of};
ghost use Rattle.register_import.specs.ComponentRows.{component_of};
ghost use Rattle.register_import.specs.Components.{difficult_last, rows_of_records};
ghost use Rattle.csv_rows.specs.Fields.{decimal};
ghost use Rattle.register_import.specs.Samples.{crude, crude_members, crude_row, designated, table_of, valve, valve_row, with_field};
ghost use Rattle.register_import.specs.UnitRows.{unit_of};
ghost use Rattle.register_import.specs.Units.{elements_of, rows_from, rows_of_elements};

/// A record of ten fields is a component; one of nine or eleven is bad.
pub fn ten_fields()
    ensures ten { component_of valve_row ≡ Some (valve 1 Plain 0) }
    ensures nine { component_of (take 9 valve_row) ≡ None }
    ensures eleven { component_of (valve_row ++ codes "" ∷ []) ≡ None }
{}

/// Numbers are decimal digits without a leading zero, in their range.
pub fn numbers()
    ensures last { component_of (with_field 0 (codes "60000")) ≡ Some (valve 60_000 Plain 0) }
    ensures past_the_last { component_of (with_field 0 (codes "60001")) ≡ None }
    ensures number_0 { component_of (with_field 0 (codes "0")) ≡ None }
    ensures leading_zero { component_of (with_field 0 (codes "01")) ≡ None }
    ensures empty { component_of (with_field 0 (codes "")) ≡ None }
    ensures sign { component_of (with_field 0 (codes "+1")) ≡ None }
    ensures blank { component_of (with_field 0 (codes "1 ")) ≡ None }
    ensures zero_alone { decimal (codes "0") 60 ≡ Some 0 }
    ensures unit_65 { component_of (with_field 1 (codes "65")) ≡ None }
    ensures month_4 { component_of (with_field 6 (codes "4")) ≡ None }
{}

/// Words are in lower case, with nothing before or after them.
pub fn words()
    ensures kind { component_of (with_field 2 (codes "tank")) ≡ None }
    ensures letters { component_of (with_field 2 (codes "Valve")) ≡ None }
    ensures service { component_of (with_field 3 (codes "steam")) ≡ None }
    ensures designation { component_of (with_field 4 (codes "")) ≡ None }
    ensures flag { component_of (with_field 7 (codes "true")) ≡ None }
    ensures day { component_of (with_field 9 (codes "2020-02-30")) ≡ None }
{}

/// A plan has months if the component is unsafe to monitor, and otherwise none (40 CFR 60.482-7a(g)).
pub fn plans()
    ensures unsafe_to_monitor { component_of (designated (codes "unsafe") (codes "60")) ≡ Some (valve 1 Unsafe 60) }
    ensures no_plan { component_of (designated (codes "unsafe") (codes "0")) ≡ None }
    ensures too_long { component_of (designated (codes "unsafe") (codes "61")) ≡ None }
    ensures not_unsafe { component_of (designated (codes "nde") (codes "1")) ≡ None }
    ensures none { component_of (designated (codes "nde") (codes "0")) ≡ Some (valve 1 Nde 0) }
{}

/// Difficult-to-monitor components are last; each of the two groups is in the order of the file.
pub fn difficult_ones_stand_last()
    ensures order { difficult_last (valve 1 Difficult 0 ∷ valve 2 Plain 0 ∷ valve 3 Difficult 0 ∷ valve 4 Unsafe 12 ∷ [])
        ≡ valve 2 Plain 0 ∷ valve 4 Unsafe 12 ∷ valve 1 Difficult 0 ∷ valve 3 Difficult 0 ∷ [] }
{}

/// Batches are of handheld 0 and numbered from the requested number on.
pub fn batches_are_numbered()
    ensures none { batches_of 7 [] ≡ [] }
    ensures one { batches_of 7 (crude ∷ []) ≡ record { handheld = 0; number = 7; facts = crude ∷ [] } ∷ [] }
{}

/// A table with exactly the four keys is a process unit.
pub fn four_keys()
    ensures four { unit_of crude_row ≡ Some crude }
    ensures further { unit_of (table (member (codes "a") (boolean true) crude_members)) ≡ None }
    ensures missing { unit_of (table (member (codes "name") (string (codes "CRUDE")) no_members)) ≡ None }
    ensures no_table { unit_of (boolean true) ≡ None }
{}

/// Each value has its type and its range.
pub fn unit_values()
    ensures past_the_last { unit_of (table (table_of (string (codes "A")) (integer (pos 65)) (boolean true) (string (codes "2020-01-15")))) ≡ None }
    ensures number_0 { unit_of (table (table_of (string (codes "A")) (integer (pos 0)) (boolean true) (string (codes "2020-01-15")))) ≡ None }
    ensures below_zero { unit_of (table (table_of (string (codes "A")) (integer (negsuc 0)) (boolean true) (string (codes "2020-01-15")))) ≡ None }
    ensures number_text { unit_of (table (table_of (string (codes "A")) (string (codes "1")) (boolean true) (string (codes "2020-01-15")))) ≡ None }
    ensures small_letters { unit_of (table (table_of (string (codes "a")) (integer (pos 1)) (boolean true) (string (codes "2020-01-15")))) ≡ None }
    ensures no_letters { unit_of (table (table_of (string (codes "")) (integer (pos 1)) (boolean true) (string (codes "2020-01-15")))) ≡ None }
    ensures long_name { unit_of (table (table_of (string (codes "ABCDEFGHIJKLM")) (integer (pos 1)) (boolean true) (string (codes "2020-01-15")))) ≡ None }
    ensures older_number { unit_of (table (table_of (string (codes "A")) (integer (pos 1)) (integer (pos 1)) (string (codes "2020-01-15")))) ≡ None }
    ensures no_day { unit_of (table (table_of (string (codes "A")) (integer (pos 1)) (boolean true) (string (codes "2007-12-31")))) ≡ None }
{}

/// A document is an array of tables `unit` and nothing else; any other text is bad row 0.
pub fn documents()
    ensures one { elements_of (member (codes "unit") (array (item crude_row no_items)) no_members) ≡ Some (item crude_row no_items) }
    ensures empty { elements_of (member (codes "unit") (array no_items) no_members) ≡ None }
    ensures no_tables { elements_of (member (codes "unit") (array (item crude_row (item (boolean true) no_items))) no_members) ≡ None }
    ensures no_array { elements_of (member (codes "unit") crude_row no_members) ≡ None }
    ensures further { elements_of (member (codes "site") (boolean true) (member (codes "unit") (array (item crude_row no_items)) no_members)) ≡ None }
    ensures none { elements_of no_members ≡ None }
    ensures row_0 { rows_of_elements None ≡ Err 0 }
{}

/// The first bad row is reported. Elements count from 1, and so do the records of a file of components.
pub fn first_bad_row()
    ensures second_unit { rows_from 1 (item crude_row (item (table no_members) (item (table no_members) no_items))) ≡ Err 2 }
    ensures no_record { rows_of_records [] ≡ Err 1 }
    ensures no_header { rows_of_records (valve_row ∷ valve_row ∷ []) ≡ Err 1 }
{}
