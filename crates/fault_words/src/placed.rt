// What is said where a value is stored: it has to be in a place, and of a type that fits.

use crate::paired::is_whole;
use crate::used::Told;
use check_faults::Verdict;
use check_operators::{Seat, Value};
use cyc_tree::Expression;
use std::alloc::AllocError;

/// Whether a value is in no place.
fn is_nowhere(value: &Value<'_>) -> bool {
    matches!(value.seat, Seat::Nowhere)
}

impl<'m, 'w, 'g, 'p> Told<'m, 'w, 'g, 'p> {
    /// Says that a value is in no place, where one is wanted. Fails only where no host memory is left, as all of these.
    fn say_nowhere(&mut self, found: &Value<'p>) -> Result<(), AllocError> {
        self.say_found(found)?;
        self.words
            .say("Wanted: a place, as a variable, `*p`, `p->x` or `a[i]`\n")
    }

    /// Says of an assignment what was found and wanted.
    pub(crate) fn say_assigned(
        &mut self,
        to: &Expression,
        from: &Expression,
    ) -> Result<(), AllocError> {
        let found = self.judged(from)?;
        let wanted = self.judged(to)?;
        if let Verdict::Of(place) = &wanted {
            if is_nowhere(place) {
                return self.say_nowhere(place);
            }
        }
        match (found, wanted) {
            (Verdict::Of(found), Verdict::Of(wanted)) => self.say_given(from, &found, &wanted.of),
            _ => Ok(()),
        }
    }

    /// Says of two values that are exchanged what was found and wanted.
    fn say_two(&mut self, one: &Value<'p>, other: &Value<'p>) -> Result<(), AllocError> {
        if is_nowhere(one) {
            return self.say_nowhere(one);
        }
        if is_nowhere(other) {
            return self.say_nowhere(other);
        }
        if is_whole(&one.of) {
            self.say_found(one)?;
            return self.words.say("Wanted: a scalar on both sides\n");
        }
        self.say_types(other, &one.of)
    }

    /// Says of two places that are exchanged what was found and wanted.
    pub(crate) fn say_exchanged(
        &mut self,
        left: &Expression,
        right: &Expression,
    ) -> Result<(), AllocError> {
        let one = self.known(left)?;
        let other = self.known(right)?;
        match (one, other) {
            (Some(one), Some(other)) => self.say_two(&one, &other),
            _ => Ok(()),
        }
    }
}
