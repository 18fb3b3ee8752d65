// A plan's rows, checked one by one. (FORMAT 9)
ghost use Rattle.std.specs.Prelude.{◌≡◌, ◌≤◌, [], IfOk, OnOk, OnErr};
ghost use Rattle.model.specs.Writer.{protected_row, plane_words, regions, rows_verdict};
ghost use Rattle.error.specs.Refused.{as_check};
ghost use Rattle.plan.specs.Checking.{bad_row, with_mark, row_verdict, regions_of};
ghost use Rattle.plan.specs.Rows.{as_row, as_plan, as_rows_verdict};

use crate::kinds::Kinds;
use ecc::ECC_KIND_BIT;
use error::Refusal;
use layout::{FLAG_ECC_PRESENT, FLAG_ENCRYPTED, FLAG_OPTIONAL, WORD};

// All flags that a row may have. A number has another bit exactly if it is above their sum. Flags are numbers, since C's `kw_row` has them so.
const ROW_FLAGS: u16 = FLAG_ENCRYPTED + FLAG_ECC_PRESENT + FLAG_OPTIONAL;

// The highest kind that a row may have; those above are kinds of planes.
const HIGHEST_KIND: u16 = ECC_KIND_BIT - 1;

// A row of a plan: `kw_row` of the C interface, of which `kw_write` lends a list.
#[repr(C)]
#[derive(Clone, Copy)]
pub struct Row {
    pub kind: u16,
    pub flags: u16,
    pub words: u32,
}

impl Row {
    // Flagged 2: the row has a plane.
    pub fn is_protected(self) -> bool
        ensures { result ≡ protected_row (as_row self) }
    {
        self.flags & FLAG_ECC_PRESENT != 0
    }

    // Words of the row's plane.
    pub fn plane_words(self) -> usize
        ensures is { result ≡ plane_words (as_row self) }
        ensures few { result ≤ 536870912 }
    {
        (self.words as usize + (WORD - 1)) / WORD
    }

    // The row's region, and its plane if it has one.
    pub fn regions(self) -> usize
        ensures is { result ≡ regions_of self.flags }
        ensures few { result ≤ 2 }
    {
        if self.is_protected() { 2 } else { 1 }
    }

    // A kind above 0x7FFF, or a flag bit other than 1, 2 and 4.
    fn is_bad(self) -> bool
        ensures { result ≡ bad_row self }
    {
        self.kind > HIGHEST_KIND || self.flags > ROW_FLAGS
    }
}

// The checks of row i in their order, and then its mark.
pub fn check_row(seen: &mut Kinds, i: usize, row: Row) -> Result<(), Refusal>
    ensures is { as_check result ≡ row_verdict seen.old.bits i row }
    ensures ok { OnOk result (seen.new.bits ≡ with_mark seen.old.bits row.kind) }
    ensures err { OnErr result (seen.new.bits ≡ seen.old.bits) }
{
    let kind = row.kind;
    let bad = row.is_bad();
    let again = seen.contains(kind);
    if bad {
        return Err(Refusal::BadPlan { row: i });
    }
    if again {
        return Err(Refusal::DuplicateRegion { kind });
    }
    seen.insert(kind);
    Ok(())
}

// The number of the rows' regions, or the first refusal that speaks of a single row.
pub fn check_rows(rows: &[Row]) -> Result<usize, Refusal>
    ensures is { as_rows_verdict result ≡ rows_verdict 0 [] (as_plan rows.now) }
    ensures counts { IfOk result (λ n. n ≡ regions (as_plan rows.now)) }
{
    let mut seen = Kinds::new();
    let mut regions: usize = 0;
    for (i, row) in rows.iter().enumerate() {
        check_row(&mut seen, i, *row)?;
        regions += row.regions();
    }
    Ok(regions)
}
