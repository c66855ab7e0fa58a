// Conditions between the fields of a row.
ghost use Rattle.std.specs.Prelude.{◌≡◌, ◌^◌, ◌<◌};
ghost use Rattle.std.specs.List.{AllByRecursion};
ghost use Rattle.refusals.specs.Refusals.{refusal_in, of_row};
ghost use Rattle.refusals.specs.Faults.{in_row};
ghost use Rattle.fields.specs.Meaning.{field_of};
ghost use Rattle.layouts.specs.Layout.{field_at};
ghost use Rattle.layouts.specs.Lawful.{NamesPremise, NamesClaim};
ghost use Rattle.records.specs.Conditions.{number_at, length_at, filled_at, premise_holds, claim_holds, premise_start, claim_start, breaks, highest_start, broken, Named};
ghost use Rattle.records.specs.Parted.{fields_in, held, HasPlace};

use crate::contents::{is_filled_in, number_in, text_in};
use crate::parted::PartedRow;
use fields::field::Field;
use layouts::conditions::{Claim, Condition, Premise};
use refusals::RowFault;

impl PartedRow<'_> {
    fn field_at(&self, place: usize) -> Field
        requires { HasPlace self.now place }
        ensures { field_of result ≡ field_at (fields_in self.now) place }
    {
        self.fields[place]
    }

    fn number_at(&self, place: usize) -> u64
        requires { HasPlace self.now place }
        ensures { result ≡ number_at (held self.now) place }
    {
        number_in(&self.field_at(place), self.row)
    }

    // The length of a text: inner blanks counted, padding not.
    fn length_at(&self, place: usize) -> usize
        requires { HasPlace self.now place }
        ensures small { result < 2 ^ 63 }
        ensures value { result ≡ length_at (held self.now) place }
    {
        text_in(&self.field_at(place), self.row).len()
    }

    fn is_filled_at(&self, place: usize) -> bool
        requires { HasPlace self.now place }
        ensures { result ≡ filled_at (fields_in self.now) (held self.now) place }
    {
        is_filled_in(&self.field_at(place), self.row)
    }

    fn premise_holds(&self, premise: Premise) -> bool
        requires { NamesPremise (fields_in self.now) premise }
        ensures { result ≡ premise_holds (fields_in self.now) (held self.now) premise }
    {
        match premise {
            Premise::Always => true,
            Premise::IfCode(place, code) => self.number_at(place) == code,
            Premise::IfEither(place, one, other) => {
                let code = self.number_at(place);
                code == one || code == other
            }
            Premise::IfFilled(place) => self.is_filled_at(place),
        }
    }

    fn claim_holds(&self, claim: Claim) -> bool
        requires { NamesClaim (fields_in self.now) claim }
        ensures { result ≡ claim_holds (fields_in self.now) (held self.now) claim }
    {
        match claim {
            Claim::IsFilled(place) => self.is_filled_at(place),
            Claim::NotFilled(place) => !self.is_filled_at(place),
            Claim::IsCode(place, code) => self.number_at(place) == code,
            Claim::AtMost(low, high) => self.number_at(low) <= self.number_at(high),
            Claim::Short(place, most) => self.length_at(place) <= most,
            Claim::ShortBoth(one, other, most) => self.length_at(one) + self.length_at(other)
                <= most,
        }
    }

    // If the premise holds, so must the claim.
    fn is_broken(&self, condition: Condition) -> bool
        requires { Named (fields_in self.now) condition }
        ensures { result ≡ breaks (fields_in self.now) (held self.now) condition }
    {
        self.premise_holds(condition.premise) && !self.claim_holds(condition.claim)
    }

    fn premise_start(&self, premise: Premise) -> usize
        requires { NamesPremise (fields_in self.now) premise }
        ensures { result ≡ premise_start (fields_in self.now) premise }
    {
        match premise {
            Premise::Always => 0,
            Premise::IfCode(place, _) | Premise::IfEither(place, _, _) | Premise::IfFilled(place) =>
                self.field_at(place).start,
        }
    }

    fn claim_start(&self, claim: Claim) -> usize
        requires { NamesClaim (fields_in self.now) claim }
        ensures { result ≡ claim_start (fields_in self.now) claim }
    {
        match claim {
            Claim::IsFilled(place)
            | Claim::NotFilled(place)
            | Claim::IsCode(place, _)
            | Claim::Short(place, _) => self.field_at(place).start,
            Claim::AtMost(one, other) | Claim::ShortBoth(one, other, _) => {
                self.field_at(one).start.max(self.field_at(other).start)
            }
        }
    }

    // The highest start among the fields of the condition.
    fn highest_start(&self, condition: Condition) -> usize
        requires { Named (fields_in self.now) condition }
        ensures { result ≡ highest_start (fields_in self.now) condition }
    {
        self.premise_start(condition.premise)
            .max(self.claim_start(condition.claim))
    }

    // Refuses the first condition that is broken.
    pub(crate) fn check_conditions(&self, conditions: &[Condition]) -> Result<(), RowFault>
        requires { AllByRecursion (Named (fields_in self.now)) conditions.now }
        ensures { refusal_in of_row result ≡ in_row self.now.number (broken (fields_in self.now) (held self.now) conditions.now) }
    {
        for condition in conditions {
            if self.is_broken(*condition) {
                return Err(RowFault::Condition {
                    row: self.number,
                    position: self.highest_start(*condition),
                });
            }
        }
        Ok(())
    }
}
