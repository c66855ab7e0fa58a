// Examples of drafts: how many followers a charge may have.
#![tactic(auto)]

#[cfg(test)]
mod tests {
    use drafts::drafts::Draft;
    use example_entries::{charge, follower, header, trailer};
    use forms::Flat;
    use outgoing_receipts::OutgoingReceipts;
    use refusals::{DraftFault, Refusal};
    use rows::Written;
    use std::test::Fail;

    // A header, a charge, and as many followers: the fault that ended it.
    fn with_followers(followers: u8, memory: &mut [u8]) -> Result<(), DraftFault> {
        let carrier: Written<Flat> = Written::over(memory);
        let mut draft = Draft::new(OutgoingReceipts, carrier);
        draft.start(header())?;
        draft.add(charge())?;
        for _ in 0..followers {
            draft.add(follower())?;
        }
        draft.close(trailer())
    }

    #[test]
    fn the_fiftieth_follower_passes_and_the_next_is_refused(rt: HostRuntime) -> Result<(), Fail> {
        let mut memory = [0u8; 41_250];
        assert!(rt; with_followers(50, &mut memory).is_ok(), "fifty");
        let Err(fault) = with_followers(51, &mut memory) else {
            return Err(Fail::new("fifty-one are taken"));
        };
        let refusal = fault.refusal();
        assert!(rt; refusal.number == 21 && refusal.first == 53 && refusal.second == 1);
        Ok(())
    }
}
