// Formula sheets against the answers that the rules give, read against the actions key and bus and the property safe.
use formula::{Alpha, Formula, Node, OnePart, TwoParts, read_formula};
use model::vocabulary::Vocabulary;
use words::{Fault, name_of};

fn keys() -> Vocabulary {
    let mut vocabulary = Vocabulary::BLANK;
    vocabulary.actions.push(name_of(b"key"));
    vocabulary.actions.push(name_of(b"bus"));
    vocabulary.properties.push(name_of(b"safe"));
    vocabulary
}

fn refusal(text: &[u8], place: &mut Formula) -> Option<Fault> {
    read_formula(text, &keys(), place).err()
}

fn refused(text: &[u8]) -> Option<Fault> {
    let mut place = Formula::BLANK;
    refusal(text, &mut place)
}

#[test]
fn nodes_in_prefix_order(rt: HostRuntime) {
    let mut place = Formula::BLANK;
    assert_eq!(rt;
        refusal(b"2 Y Z eu Z not safe ag { bus key } true", &mut place),
        None
    );
    assert_eq!(rt; place.node_count(), 5);
    assert_eq!(rt; place.node(0), Node::Two(TwoParts::Eu, Alpha::Variable(1)));
    assert_eq!(rt; place.node(1), Node::Not);
    assert_eq!(rt; place.node(2), Node::Property(0));
    assert_eq!(rt; place.node(3), Node::One(OnePart::Ag, Alpha::Written(3)));
    assert_eq!(rt; place.node(4), Node::True);
    assert_eq!(rt; place.actions(), 2);
    assert_eq!(rt; place.variables(), 2);
    assert_eq!(rt; place.properties(), 1);
    assert!(rt; place.variable_name(1) == b"Z".as_slice());
}

#[test]
fn a_refused_place_keeps_what_it_held(rt: HostRuntime) {
    let mut place = Formula::BLANK;
    assert_eq!(rt; refusal(b"0 not safe", &mut place), None);
    assert_eq!(rt;
        refusal(b"1 Y or true", &mut place),
        Some(Fault::TextEnds(11))
    );
    assert_eq!(rt; place.node_count(), 2);
    assert_eq!(rt; place.node(1), Node::Property(0));
}

#[test]
fn words_of_a_sheet(rt: HostRuntime) {
    assert_eq!(rt; refused(b"5"), Some(Fault::BadCount(0)));
    assert_eq!(rt; refused(b"1 y"), Some(Fault::BadName(2)));
    assert_eq!(rt; refused(b"2 Y Y"), Some(Fault::NameTaken(4)));
    assert_eq!(rt; refused(b"0 lock"), Some(Fault::NotNamed(2)));
    assert_eq!(rt; refused(b"0 ef Y safe"), Some(Fault::NotNamed(5)));
    assert_eq!(rt; refused(b"0 ef { lock } safe"), Some(Fault::NotNamed(7)));
    assert_eq!(rt; refused(b"0 ef { } safe"), Some(Fault::BadBraces(7)));
    assert_eq!(rt;
        refused(b"0 ef { key key } safe"),
        Some(Fault::BadBraces(11))
    );
    assert_eq!(rt; refused(b"0 true \t"), None);
}
