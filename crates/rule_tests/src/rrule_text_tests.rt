use crate::rows::{rows, sides};
use moment_core::{Moment, Stamp};
use rrule_text::{RruleFault, read_rrule, write_rrule};
use std::test::Fail;

/// The written form of the rule that a text writes, with a first moment on this clock.
fn form(rt: &HostRuntime, text: &str, absolute: bool) -> Result<Vec<u8>, RruleFault> {
    let start = Stamp {
        moment: Moment(0),
        absolute,
    };
    let rule = read_rrule(rt.alloc(), text.as_bytes(), start)?;
    Ok(write_rrule(rt.alloc(), &rule)?)
}

#[test]
fn texts_are_read_and_written_in_one_form(rt: HostRuntime) {
    const ROWS: &str = "\
RRULE:freq=daily; -> FREQ=DAILY
INTERVAL=0000000001;WKST=MO;FREQ=YEARLY -> FREQ=YEARLY
Byday=+1mo,fr,-1mo,mo,2fr,1MO;freq=monthly -> FREQ=MONTHLY;BYDAY=MO,-1MO,1MO,FR,2FR
INTERVAL=1000000000;COUNT=1000000000;FREQ=SECONDLY -> \
FREQ=SECONDLY;COUNT=1000000000;INTERVAL=1000000000
wkst=su;bysetpos=-1,+1,1;bysecond=60,0;byminute=07;byhour=9,8;bymonthday=+15,-1;\
byyearday=1,-366;freq=hourly -> \
FREQ=HOURLY;BYYEARDAY=-366,1;BYMONTHDAY=-1,15;BYHOUR=8,9;BYMINUTE=7;BYSECOND=0,60;\
BYSETPOS=-1,1;WKST=SU
BYWEEKNO=20,-1;BYMONTH=12,1;FREQ=YEARLY -> FREQ=YEARLY;BYMONTH=1,12;BYWEEKNO=-1,20
FREQ=DAILY;UNTIL=99991231 -> FREQ=DAILY;UNTIL=99991231T235959
until=00000229t010203;freq=weekly -> FREQ=WEEKLY;UNTIL=00000229T010203
FREQ=MINUTELY;UNTIL=20240101T000000Z -> FREQ=MINUTELY;UNTIL=20240101T000000Z
";
    for row in rows(&rt, ROWS) {
        let (text, wanted) = sides(&rt, row);
        let found = form(&rt, text, true);
        assert!(rt;
            found.is_ok_and(|form| form.as_slice() == wanted.as_bytes()),
            "{row}"
        );
    }
}

#[test]
fn texts_are_refused_by_the_first_fault(rt: HostRuntime) -> Result<(), Fail> {
    const ROWS: &str = "\
RRULE:RRULE:FREQ=DAILY -> Syntax
 -> Syntax
FREQ=DAILY;; -> Syntax
FREQ =DAILY -> Syntax
INTERVAL=2 -> Syntax
FREQ=DAILY;COLOUR=1 -> Syntax
FREQ=DAILY;DTSTART=20240101 -> Syntax
FREQ=DAILY;COUNT=+1 -> Syntax
FREQ=DAILY;COUNT=00000000001 -> Syntax
FREQ=DAILY;BYMONTH=1,,2 -> Syntax
FREQ=DAILY;BYDAY=+MO -> Syntax
FREQ=DAILY;UNTIL=20240101Z -> Syntax
FREQ=DAILY;UNTIL=20240101T0000 -> Syntax
FREQ=DAILY;FREQ=DAILY;WKST=M -> Syntax
WKST=MO;COUNT=0;COUNT=0;FREQ=DAILY;WKST=SU -> Repeated(Count)
FREQ=DAILY;COUNT=0;UNTIL=20230229 -> Rule(BadMix(Until, Count))
FREQ=DAILY;BYDAY=0MO;INTERVAL=0 -> Rule(BadMix(ByDay, Freq))
FREQ=DAILY;UNTIL=20230229T000000Z -> Rule(BadMix(Until, Dtstart))
FREQ=DAILY;BYMONTH=13;UNTIL=20240101T240000 -> Rule(BadValue(Until))
FREQ=MONTHLY;INTERVAL=0;BYDAY=-0MO -> Rule(BadValue(ByDay))
FREQ=MONTHLY;BYDAY=-53MO;INTERVAL=0 -> Rule(BadInterval)
";
    for row in rows(&rt, ROWS) {
        let (text, wanted) = sides(&rt, row);
        match form(&rt, text, false) {
            Ok(_) => panic!(rt; "read: {row}"),
            Err(fault) => {
                let found = format!(in rt.alloc(); "{fault:?}")?;
                assert_eq!(rt; found.as_str(), wanted, "{row}");
            }
        }
    }
    Ok(())
}
