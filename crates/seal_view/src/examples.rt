//! Worked examples of the definitions: the contracts of empty functions, each clause proved by computing.

ghost use Rattle.std.specs.Prelude.{◌≡◌, ◌∷◌, [], Err, None, Ok, Some, codes, false, map, true};
ghost use Rattle.pump_seals.specs.declared.row.SealWhat.TheVariants.{On, Present};
ghost use Rattle.seal_view.specs.declared.error.SealsWhy.TheVariants.{BadRow};
ghost use Rattle.seal_view.specs.Samples.{register, row};
ghost use Rattle.seal_view.specs.View.{by_file, by_rows, first_wrong, is_pump_of, named};

/// A component is a pump of a process unit if the facts enter it so.
pub fn pumps_of_a_unit()
    ensures pumps { map (is_pump_of 1 register) (3 ∷ 5 ∷ 7 ∷ 9 ∷ 11 ∷ []) ≡ true ∷ true
        ∷ false ∷ false ∷ false ∷ [] }
{}

/// Of the records whose component is no pump of the process unit the one with the lowest number is reported.
pub fn wrong_records()
    ensures none { first_wrong (is_pump_of 1 register) (row 2 On 3 19_754 ∷ row 3 On 5 19_754 ∷ []) ≡ None }
    ensures lowest { first_wrong (is_pump_of 1 register) (row 5 On 3 19_754 ∷ row 4 On 7 19_754 ∷ row 2 On 9 19_754 ∷ row 3 On 11 19_754 ∷ []) ≡ Some 2 }
    ensures told { by_rows 1 19_754 register (row 2 On 3 19_754 ∷ row 3 On 7 19_754 ∷ []) ≡ Err (BadRow 3) }
    ensures bad_file { by_file 1 19_754 register (Err 2) ≡ Err (BadRow 2) }
{}

/// Each pump that the file names is there once.
pub fn named_pumps()
    ensures each { named (row 2 On 3 19_754 ∷ row 4 Present 3 19_755 ∷ row 3 On 5 19_754 ∷ []) ≡ 3 ∷ 5 ∷ [] }
{}

/// The pumps are in ascending order, each with its duties and then its tags. A pump whose rows are all of later days has no lines.
pub fn views()
    ensures nothing { by_rows 1 19_754 register [] ≡ Ok (codes "seals 1 2024-02-01\nend 0\n") }
    ensures later { by_rows 1 19_754 register (row 2 On 5 19_755 ∷ []) ≡ Ok (codes "seals 1 2024-02-01\nend 0\n") }
    ensures two { by_rows 1 19_754 register (row 3 On 3 19_754 ∷ row 4 Present 3 19_754 ∷ row 2 On 5 19_754 ∷ [])
        ≡ Ok (codes "seals 1 2024-02-01\n3 sealweek 2024-02-04 open\n3 seal sensor detected 2024-02-01 attempt 2024-02-06 - repair 2024-02-16 -\n5 sealweek 2024-02-04 open\nend 3\n") }
{}
