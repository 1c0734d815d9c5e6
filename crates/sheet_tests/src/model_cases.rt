// Model sheets against the answers that the rules give.
use model::{Counts, Model, read_model};
use std::test::Fail;
use words::Fault;

const DISPLAY: &[u8] =
    b"3 idle menu lock 2 key bus 1 safe 1 lock safe 3 idle key menu menu key idle menu bus lock";

fn refusal(text: &[u8], place: &mut Model) -> Option<Fault> {
    read_model(text, place).err()
}

fn refused(text: &[u8]) -> Option<Fault> {
    let mut place = Model::BLANK;
    refusal(text, &mut place)
}

#[test]
fn counts_and_rest(rt: HostRuntime) -> Result<(), Fail> {
    let mut place = Model::BLANK;
    let text = b"2 on off 1 key 1 lit 1 on lit 2 on key off off key on 0 true";
    let Ok(read) = read_model(text, &mut place) else {
        return Err(Fail::new("the sheet is refused"));
    };
    let counts = Counts {
        states: 2,
        actions: 1,
        properties: 1,
        labels: 1,
        arcs: 2,
    };
    assert_eq!(rt; read.counts, counts);
    assert!(rt; read.rest == b" 0 true".as_slice());
    Ok(())
}

#[test]
fn names_and_numbers(rt: HostRuntime) {
    let mut place = Model::BLANK;
    assert_eq!(rt; refusal(DISPLAY, &mut place), None);
    assert_eq!(rt; place.states.find(b"lock"), Some(2));
    assert_eq!(rt; place.vocabulary.actions.find(b"bus"), Some(1));
    assert_eq!(rt; place.vocabulary.properties.find(b"safe"), Some(0));
    assert_eq!(rt; place.vocabulary.properties.find(b"lock"), None);
    assert!(rt; place.states.name(1) == b"menu".as_slice());
    assert!(rt; place.states.name(3) == b"".as_slice());
}

#[test]
fn a_refused_place_keeps_what_it_held(rt: HostRuntime) {
    let mut place = Model::BLANK;
    assert_eq!(rt; refusal(DISPLAY, &mut place), None);
    assert_eq!(rt;
        refusal(b"2 on off 1 key 0 0 1 on key of", &mut place),
        Some(Fault::NotNamed(28))
    );
    assert_eq!(rt; place.states.find(b"lock"), Some(2));
    assert_eq!(rt; place.states.find(b"on"), None);
}

#[test]
fn words_and_counts(rt: HostRuntime) {
    assert_eq!(rt; refused(b""), Some(Fault::TextEnds(0)));
    assert_eq!(rt; refused(b" \n "), Some(Fault::TextEnds(3)));
    assert_eq!(rt; refused(b"1\ts"), Some(Fault::ForeignByte(0)));
    assert_eq!(rt; refused(b"0 1 a 0 0 0"), Some(Fault::BadCount(0)));
    assert_eq!(rt; refused(b"01 s"), Some(Fault::BadCount(0)));
    assert_eq!(rt; refused(b"1 s 13"), Some(Fault::BadCount(4)));
    assert_eq!(rt; refused(b"1 s 1 a 17"), Some(Fault::BadCount(8)));
    assert_eq!(rt; refused(b"1 s 1 a 0 1025"), Some(Fault::BadCount(10)));
    assert_eq!(rt; refused(b"1 s 1 a 0 0 513"), Some(Fault::BadCount(12)));
}

#[test]
fn names_labels_and_arcs(rt: HostRuntime) {
    assert_eq!(rt; refused(b"1 S"), Some(Fault::BadName(2)));
    assert_eq!(rt; refused(b"1 _s"), Some(Fault::BadName(2)));
    assert_eq!(rt; refused(b"2 s s"), Some(Fault::NameTaken(4)));
    assert_eq!(rt; refused(b"1 s 1 a 1 auw"), Some(Fault::NameTaken(10)));
    assert_eq!(rt; refused(b"1 s 1 a 1 p 1 s q"), Some(Fault::NotNamed(16)));
    assert_eq!(rt;
        refused(b"1 s 1 a 1 p 2 s p s p"),
        Some(Fault::Repeated(20))
    );
    assert_eq!(rt;
        refused(b"1 s 1 a 0 0 2 s a s s a s"),
        Some(Fault::Repeated(24))
    );
    assert_eq!(rt;
        refused(b"1 s 1 a 0 0 2 s a s s a t"),
        Some(Fault::NotNamed(24))
    );
    assert_eq!(rt; refused(b"1 s 1 a 0 0 0 \xff"), None);
}
