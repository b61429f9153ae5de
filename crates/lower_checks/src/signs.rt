// Pointers around each other, by their kinds.

ghost use Rattle.std.specs.Prelude.{◌≡◌, ◌+◌, ◌*◌, ◌∷◌, [], None, IfOk, IfSome};
ghost use Rattle.lower_checks.specs.Signs.{alone_digit, digits_signs, fat_digit, pointing_of, signs_of};

use crate::vectors::append;
use bumpalo::Bump;
use std::alloc::{AllocError, Global};

/// A pointer as `&`, `new` and `rnew` give it.
#[derive(Clone, Copy)]
pub enum Pointing {
    /// It carries bounds.
    Fat,
    /// It leads to one object, is never NULL, and isn't unique.
    Shared,
    /// It leads to one object, is never NULL, and is unique.
    Alone,
}

impl Pointing {
    /// A pointer, by whether it is fat, and else whether it is unique.
    fn of(fat: bool, alone: bool) -> Pointing
        ensures { result ≡ pointing_of fat alone }
    {
        if fat {
            Pointing::Fat
        } else if alone {
            Pointing::Alone
        } else {
            Pointing::Shared
        }
    }

    /// Its digit among those of the fat ones.
    fn fat(self) -> u128
        ensures { result ≡ fat_digit self }
    {
        match self {
            Pointing::Fat => 1,
            Pointing::Shared | Pointing::Alone => 0,
        }
    }

    /// Its digit among those of the unique ones.
    fn alone(self) -> u128
        ensures { result ≡ alone_digit self }
    {
        match self {
            Pointing::Alone => 1,
            Pointing::Fat | Pointing::Shared => 0,
        }
    }
}

/// Digits with one more behind them; `None` where that is over the greatest u128.
fn followed(digits: u128, last: u128) -> Option<u128>
    ensures { IfSome result (λ more. more ≡ digits * 2 + last) }
{
    let doubled = digits.checked_mul(2)?;
    doubled.checked_add(last)
}

/// Some pointers around each other, the outermost one first: how many there are, the sum of 2^k for each one that is fat, and for each one
/// that is unique, which has k others around it. So 128 pointers always fit.
#[derive(Clone, Copy)]
pub struct Digits {
    pub many: u32,
    pub fat: u128,
    pub alone: u128,
}

impl Digits {
    /// No pointers.
    fn none() -> Digits
        ensures { digits_signs result ≡ [] }
    {
        Digits {
            many: 0,
            fat: 0,
            alone: 0,
        }
    }

    /// The outermost pointer, and those in it; `None` of no pointers.
    #[tactic(auto, using(crate::proofs::Rows::sign_out))]
    fn outermost(self) -> Option<(Pointing, Digits)>
        ensures some { IfSome result (λ found. digits_signs self ≡ found.0 ∷ digits_signs found.1) }
        ensures none { result ≡ None → digits_signs self ≡ [] }
    {
        if self.many == 0 {
            return None;
        }
        let others = Digits {
            many: self.many - 1,
            fat: self.fat / 2,
            alone: self.alone / 2,
        };
        let first = Pointing::of(self.fat % 2 == 1, self.alone % 2 == 1);
        Some((first, others))
    }

    /// A further pointer around these; `None` where no digit is left.
    #[tactic(auto, using(crate::proofs::Rows::sign_within))]
    fn within(self, pointing: Pointing) -> Option<Digits>
        ensures { IfSome result (λ digits. digits_signs digits ≡ pointing ∷ digits_signs self) }
    {
        Some(Digits {
            many: self.many.checked_add(1)?,
            fat: followed(self.fat, pointing.fat())?,
            alone: followed(self.alone, pointing.alone())?,
        })
    }
}

/// Pointers around each other: the outermost one, and those in it.
#[derive(Clone, Copy)]
pub struct Row {
    pub first: Pointing,
    pub others: Digits,
}

/// Pointers around each other, as `&`, `new` and `rnew` give them, from the outside inwards: as many of the outermost ones as digits hold,
/// and rows of those within them, the outer one first.
#[derive(Clone, Copy)]
pub struct Signs<'p> {
    pub digits: Digits,
    pub rows: &'p [Row],
}

impl<'p> Signs<'p> {
    /// No pointer.
    pub fn none() -> Signs<'p>
        ensures { signs_of result ≡ [] }
    {
        Signs {
            digits: Digits::none(),
            rows: &[],
        }
    }

    /// The outermost pointer, and those in it; `None` of no pointer.
    #[tactic(auto, using(crate::proofs::Rows::first_digit, crate::proofs::Rows::first_row, crate::proofs::Rows::none_out))]
    pub fn outermost(self) -> Option<(Pointing, Signs<'p>)>
        ensures some { IfSome result (λ found. signs_of self.entry ≡ found.0 ∷ signs_of found.1) }
        ensures none { result ≡ None → signs_of self.entry ≡ [] }
    {
        if let Some((first, digits)) = self.digits.outermost() {
            let others = Signs {
                digits,
                rows: self.rows,
            };
            return Some((first, others));
        }
        match self.rows {
            [row, others @ ..] => {
                let others = Signs {
                    digits: row.others,
                    rows: others,
                };
                Some((row.first, others))
            }
            [] => None,
        }
    }

    /// A further pointer around these: where no digit is left, the digits become a row. Fails only where no host memory is left.
    #[tactic(auto, using(crate::proofs::Rows::first_digit, crate::proofs::Rows::full_row))]
    pub fn within(
        self,
        alloc: Global,
        arena: &'p Bump,
        pointing: Pointing,
    ) -> Result<Signs<'p>, AllocError>
        ensures within { IfOk result (λ signs. signs_of signs ≡ pointing ∷ signs_of self.entry) }
    {
        if let Some(digits) = self.digits.within(pointing) {
            return Ok(Signs {
                digits,
                rows: self.rows,
            });
        }
        let full = Row {
            first: pointing,
            others: self.digits,
        };
        let mut rows = Vec::new(alloc);
        append(&mut rows, full)?;
        rows.extend_from_slice(self.rows)?;
        let rows = arena.try_alloc_slice_copy(rows.as_slice())?;
        Ok(Signs {
            digits: Digits::none(),
            rows,
        })
    }
}
