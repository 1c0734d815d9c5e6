// Cases of the report: texts, and what is reported of them.
#![tactic(auto)]

#[cfg(test)]
mod tests {
    use report::{ReportFault, arcsyn_report, printed, report};
    use std::test::Fail;

    const STORE: usize = 128;

    const OUT: usize = 256;

    fn is_reported(text: &[u8], expected: &[u8]) -> Result<(), Fail> {
        let mut store = [0u8; STORE];
        let mut out = [7u8; OUT];
        let Ok(count) = report(text, &mut store, &mut out) else {
            return Err(Fail::new("the output is too short"));
        };
        if count < OUT && &out[0..count] == expected && out[count] == 7 {
            Ok(())
        } else {
            Err(Fail::new("the output is another"))
        }
    }

    #[test]
    fn the_worked_display() -> Result<(), Fail> {
        is_reported(
            b"3 idle menu lock 2 key bus 1 safe 1 lock safe 3 idle key menu menu key idle menu bus lock\n1 Y ef Y safe\n2 Y Z ef Y ag Z not safe\n0 true\n",
            b"held 1 of 3 rounds 3\nY={key bus}\nheld 6 of 9 rounds 5\nY={key} Z={key}\nY={bus} Z={key}\nY={key bus} Z={key}\nY={key} Z={bus}\nY={bus} Z={bus}\nY={key bus} Z={bus}\nheld 1 of 1 rounds 0\n-\n",
        )
    }

    #[test]
    fn a_model_alone() -> Result<(), Fail> {
        is_reported(b"1 a 1 b 0 0 0 \n", b"")
    }

    #[test]
    fn refusals_say_where() -> Result<(), Fail> {
        is_reported(b"", b"refused 3 at 0\n")?;
        is_reported(b"1 a 1 A 0 0 0", b"refused 5 at 6\n")?;
        is_reported(
            b"1 a 1 b 0 0 0 0 true 0 c",
            b"held 1 of 1 rounds 0\n-\nrefused 7 at 23\n",
        )?;
        is_reported(b"1 a 1 b 0 0 0 5", b"refused 4 at 14\n")?;
        is_reported(b"1 a 1 b 0 0 0 1 Y ef", b"refused 3 at 20\n")
    }

    #[test]
    fn a_store_too_small(rt: HostRuntime) {
        let mut store = [0u8; 7];
        let mut out = [0u8; 64];
        let text = b"1 a 1 b 0 0 0  0 true 0 not true";
        assert_eq!(rt; report(text, &mut store, &mut out), Ok(17));
        assert!(rt; &out[0..17] == b"refused 21 at 15\n".as_slice());
        let mut larger = [0u8; 8];
        assert_eq!(rt; report(text, &mut larger, &mut out), Ok(40));
        assert!(rt; &out[0..40] == b"held 1 of 1 rounds 0\n-\nrefused 21 at 22\n".as_slice());
    }

    #[test]
    fn an_output_too_short(rt: HostRuntime) {
        let mut store = [0u8; STORE];
        let mut out = [7u8; 22];
        let text = b"1 a 1 b 0 0 0 0 true";
        assert_eq!(rt;
            report(text, &mut store, &mut out),
            Err(ReportFault::OutputTooShort)
        );
        assert!(rt; &out[0..22] == [7u8; 22].as_slice());
        assert_eq!(rt; arcsyn_report(text, &mut store, &mut out), -26);
        assert_eq!(rt; printed(text, &mut store, &mut out), 16);
        assert!(rt; &out[0..16] == b"refused 26 at 0\n".as_slice());
        let mut whole = [7u8; 23];
        assert_eq!(rt; arcsyn_report(text, &mut store, &mut whole), 23);
        assert!(rt; &whole[0..23] == b"held 1 of 1 rounds 0\n-\n".as_slice());
        let mut tiny = [7u8; 3];
        assert_eq!(rt; printed(text, &mut store, &mut tiny), 3);
        assert!(rt; &tiny[0..3] == b"ref".as_slice());
    }
}
