// What a phrase is.

ghost use Rattle.std.specs.Prelude.{◌≡◌};

use crate::fault::{Fault, sooner};

/// What a phrase is, where `T` is what is known of one in order.
#[derive(Drop)]
pub enum Verdict<T> {
    /// At fault; this is the fault that is answered.
    Wrong(Fault),
    /// Not known, since a name in it is declared by a phrase with a fault.
    NotJudged,
    /// In order.
    Of(T),
}

impl<T: Drop> Verdict<T> {
    ghost use Rattle.check_faults.specs.Verdicts.{fault_found, paired, wrong_if};

    /// Its fault.
    pub fn fault(&self) -> Option<Fault>
        ensures { result ≡ fault_found self.now }
    {
        match self {
            Verdict::Wrong(fault) => Some(*fault),
            Verdict::NotJudged | Verdict::Of(_) => None,
        }
    }

    /// Of a phrase that isn't in order: the fault, where there is one.
    pub fn wrong_if(fault: Option<Fault>) -> Verdict<T>
        ensures { result ≡ wrong_if fault }
    {
        match fault {
            Some(fault) => Verdict::Wrong(fault),
            None => Verdict::NotJudged,
        }
    }

    /// It together with another part.
    pub fn paired<U: Drop>(self, other: Verdict<U>) -> Verdict<(T, U)>
        ensures { result ≡ paired self other }
    {
        let fault = sooner(self.fault(), other.fault());
        match (self, other) {
            (Verdict::Of(one), Verdict::Of(two)) => Verdict::Of((one, two)),
            _ => Verdict::wrong_if(fault),
        }
    }
}
