//! Round-trip laws of reading and writing, as contracts of functions: a call proves the law.
ghost use Rattle.std.specs.Prelude.{◌≡◌, ◌≤◌, ◌<◌, ◌^◌, ℕ, ℤ, List, Ok, decimal, map};
ghost use Rattle.std.specs.Fmt.{signed_decimal};
ghost use Rattle.csv.specs.Reading.{strip_bom};
ghost use Rattle.csv.specs.Writing.{read_back};
ghost use Rattle.records.specs.Fields.{Fields, IsWithin, number_in, signed_in};
ghost use Rattle.records.specs.Records.{records_in};
ghost use Rattle.records.specs.Spelling.{text_of_records};

/// Parsing a number's digits gives the number.
pub fn number_read_back()
    ensures { (low high n : ℕ)
        → low ≤ n → n ≤ high → n < 2 ^ 64 → number_in low high (decimal n) ≡ Ok n }
{}

/// Formatting a parsed number gives the field.
pub fn number_spelled()
    ensures { (low high n : ℕ) (bytes : List ℕ)
        → n < 2 ^ 64 → number_in low high bytes ≡ Ok n → bytes ≡ decimal n }
{}

/// Parsing a signed number's text gives the number.
pub fn signed_read_back()
    ensures { (most : ℕ) (z : ℤ)
        → IsWithin most z → most < 2 ^ 60 → signed_in most (signed_decimal z) ≡ Ok z }
{}

/// Reading the text of records gives the records, unless the text begins with a byte order mark.
pub fn records_read_back()
    ensures { (rows : List Fields)
        → strip_bom (text_of_records rows) ≡ text_of_records rows
        → records_in (text_of_records rows) ≡ map read_back rows }
{}
