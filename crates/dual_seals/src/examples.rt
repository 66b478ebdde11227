//! Worked examples of the definitions: the contracts of empty functions, each clause proved by computing.
#![tactic(auto, unfolding(csv::specs::Records::field_at, ldar_days::specs::Calendar::first_day, ldar_days::specs::Calendar::month_of, ldar_days::specs::Calendar::month_length, ldar_days::specs::Texts::day_of, csv_rows::specs::Fields::number, csv_rows::specs::Fields::day, pump_seals::specs::Moments::is_before, crate::specs::RowOrder::comes_first, crate::specs::RowOrder::is_duplicate, crate::specs::Rows::what_of, crate::specs::Rows::row_of))]

ghost use Rattle.std.specs.Prelude.{◌≡◌, ◌++◌, ◌∷◌, [], Err, None, Ok, Some, codes, take};
ghost use Rattle.pump_seals.specs.declared.row.SealWhat.TheVariants.{On, Off, Present, Gone};
ghost use Rattle.dual_seals.specs.Rows.{in_turn, row_of, rows_of_records};
ghost use Rattle.dual_seals.specs.Samples.{fields, header, row};

/// A record of five fields is a row; one of four or six is bad.
pub fn five_fields()
    ensures five { row_of 2 (fields (codes "seal") (codes "5") (codes "2024-02-01") (codes "0") (codes "on")) ≡ Some (row 2 On 5 19_754 0) }
    ensures four { row_of 2 (take 4 (fields (codes "seal") (codes "5") (codes "2024-02-01") (codes "0") (codes "on"))) ≡ None }
    ensures six { row_of 2 (fields (codes "seal") (codes "5") (codes "2024-02-01") (codes "0") (codes "on") ++ codes "" ∷ []) ≡ None }
{}

/// A seal is on or off, and a sensor's failure is present or gone; numbers are in their range.
pub fn words_and_numbers()
    ensures off { row_of 2 (fields (codes "seal") (codes "60000") (codes "2024-02-01") (codes "1439") (codes "off")) ≡ Some (row 2 Off 60_000 19_754 1_439) }
    ensures present { row_of 2 (fields (codes "sensor") (codes "5") (codes "2024-02-01") (codes "0") (codes "present")) ≡ Some (row 2 Present 5 19_754 0) }
    ensures gone { row_of 2 (fields (codes "sensor") (codes "5") (codes "2024-02-01") (codes "0") (codes "gone")) ≡ Some (row 2 Gone 5 19_754 0) }
    ensures sensor_on { row_of 2 (fields (codes "sensor") (codes "5") (codes "2024-02-01") (codes "0") (codes "on")) ≡ None }
    ensures seal_gone { row_of 2 (fields (codes "seal") (codes "5") (codes "2024-02-01") (codes "0") (codes "gone")) ≡ None }
    ensures other_word { row_of 2 (fields (codes "Seal") (codes "5") (codes "2024-02-01") (codes "0") (codes "on")) ≡ None }
    ensures component_0 { row_of 2 (fields (codes "seal") (codes "0") (codes "2024-02-01") (codes "0") (codes "on")) ≡ None }
    ensures component_60001 { row_of 2 (fields (codes "seal") (codes "60001") (codes "2024-02-01") (codes "0") (codes "on")) ≡ None }
    ensures minute_1440 { row_of 2 (fields (codes "seal") (codes "5") (codes "2024-02-01") (codes "1440") (codes "on")) ≡ None }
    ensures no_day { row_of 2 (fields (codes "seal") (codes "5") (codes "2024-02-30") (codes "0") (codes "on")) ≡ None }
{}

/// The first bad record is reported by its number. A file needs its header, but no other record.
pub fn files()
    ensures nothing { rows_of_records [] ≡ Err 1 }
    ensures no_header { rows_of_records (fields (codes "seal") (codes "5") (codes "2024-02-01") (codes "0") (codes "on") ∷ []) ≡ Err 1 }
    ensures header { rows_of_records (header ∷ []) ≡ Ok [] }
    ensures bad { rows_of_records (header ∷ [] ∷ []) ≡ Err 2 }
    ensures twice { rows_of_records (header ∷ fields (codes "seal") (codes "5") (codes "2024-02-01") (codes "0") (codes "on")
        ∷ fields (codes "seal") (codes "5") (codes "2024-02-01") (codes "0") (codes "off") ∷ []) ≡ Err 3 }
    ensures seal_and_sensor { in_turn (rows_of_records (header ∷ fields (codes "sensor") (codes "5") (codes "2024-02-01") (codes "0") (codes "present")
        ∷ fields (codes "seal") (codes "5") (codes "2024-02-01") (codes "0") (codes "on") ∷ []))
        ≡ Ok (row 3 On 5 19_754 0 ∷ row 2 Present 5 19_754 0 ∷ []) }
{}
