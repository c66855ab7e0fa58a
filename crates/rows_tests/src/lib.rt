// Examples of sources, carriers and forms, with bytes written out by hand.
#![tactic(auto)]

#[cfg(test)]
mod tests {
    use forms::{Flat, Hexadecimal, Lined};
    use refusals::CarrierFault;
    use rows::{Carrier, Opened, PortalStop, Source, Written, copy_all};
    use std::test::Fail;

    // What opening a hexadecimal text answers: how many rows, or the fault.
    fn hexadecimal_rows(bytes: &[u8]) -> Result<usize, CarrierFault> {
        let opened = Opened::<Hexadecimal>::open(bytes)?;
        Ok(opened.count())
    }

    #[test]
    fn a_hexadecimal_line_is_read(rt: HostRuntime) -> Result<(), Fail> {
        let mut line = [b'4'; 1501];
        line[1] = b'F';
        line[1500] = b'\n';
        let mut row = [0u8; 750];
        let opened = Opened::<Hexadecimal>::open(&line).map_err(|_| Fail::new(
            "the line is refused",
        ))?;
        assert!(rt; opened.count() == 1);
        assert!(rt; opened.copy_row(1, &mut row).is_ok());
        assert!(rt; opened.copy_row(0, &mut row) == Err(CarrierFault::NoSuchRow(0)));
        assert!(rt; opened.copy_row(2, &mut row) == Err(CarrierFault::NoSuchRow(2)));
        assert!(rt; row[0] == 0x4F && row[1] == 0x44 && row[749] == 0x44);
        Ok(())
    }

    #[test]
    fn a_broken_hexadecimal_line_is_refused_where_it_breaks(rt: HostRuntime) {
        let mut line = [b'0'; 1501];
        assert!(rt;
            hexadecimal_rows(&line) == Err(CarrierFault::BadForm(1500)),
            "no line feed"
        );
        line[1500] = b'\n';
        assert!(rt; hexadecimal_rows(&line) == Ok(1));
        assert!(rt;
            hexadecimal_rows(&line[0..1500]) == Err(CarrierFault::BadForm(1500)),
            "cut short"
        );
        assert!(rt; hexadecimal_rows(&line[0..0]) == Ok(0), "no bytes, no rows");
        line[7] = b'a';
        line[9] = b'b';
        assert!(rt;
            hexadecimal_rows(&line) == Err(CarrierFault::BadForm(7)),
            "small digits"
        );
    }

    #[test]
    fn a_pushed_row_lies_on_its_own_line(rt: HostRuntime) {
        let mut memory = [b'#'; 1510];
        let row = [b'A'; 750];
        let other = [b'B'; 750];
        let mut out: Written<Lined> = Written::over(&mut memory);
        assert!(rt; out.places() == 2 && out.count() == 0);
        assert!(rt; out.push(&row).is_ok() && out.push(&other).is_ok());
        assert!(rt; out.push(&row) == Err(CarrierFault::Full(2)));
        assert!(rt; out.count() == 2);
        assert!(rt;
            memory[749] == b'A' && memory[750] == 13 && memory[751] == 10 && memory[752] == b'B'
        );
        assert!(rt;
            memory[1501] == b'B' && memory[1502] == 13 && memory[1503] == 10 && memory[1504] == b'#'
        );
    }

    #[test]
    fn a_hexadecimal_line_is_written_high_digit_first(rt: HostRuntime) {
        let mut memory = [0u8; 1501];
        let mut row = [b'A'; 750];
        row[0] = 0x2F;
        row[749] = 0xC0;
        let mut out: Written<Hexadecimal> = Written::over(&mut memory);
        assert!(rt; out.push(&row).is_ok());
        assert!(rt;
            memory[0] == b'2' && memory[1] == b'F' && memory[2] == b'4' && memory[3] == b'1'
        );
        assert!(rt; memory[1498] == b'C' && memory[1499] == b'0' && memory[1500] == 10);
    }

    #[test]
    fn copying_stops_where_places_run_out(rt: HostRuntime) -> Result<(), Fail> {
        let mut rows = [b'x'; 2250];
        rows[750] = b'y';
        let mut memory = [0u8; 1501];
        let from = Opened::<Flat>::open(&rows).map_err(|_| Fail::new("flat rows are refused"))?;
        let mut out: Written<Flat> = Written::over(&mut memory);
        assert!(rt; copy_all(&from, &mut out) == Err(CarrierFault::Full(2)));
        assert!(rt; out.count() == 2);
        assert!(rt;
            memory[0] == b'x' && memory[750] == b'y' && memory[751] == b'x' && memory[1500] == 0
        );
        Ok(())
    }

    #[test]
    fn the_portal_stops_after_fifty_thousand_rows(rt: HostRuntime) -> Result<(), Fail> {
        let mut memory = vec![in rt.alloc(); 0u8; 37_501_500]?;
        let row = [b' '; 750];
        let mut stop = PortalStop::over(Written::<Flat>::over(memory.as_mut_slice()));
        assert!(rt; stop.places() == 50_000);
        for _ in 0..50_000u32 {
            assert!(rt; stop.push(&row).is_ok());
        }
        assert!(rt; stop.push(&row) == Err(CarrierFault::Full(50_000)));
        assert!(rt; stop.count() == 50_000);
        let below = stop.into_below();
        assert!(rt; below.places() == 50_002);
        Ok(())
    }
}
