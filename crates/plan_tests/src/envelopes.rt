//! The headings of envelopes, their sections, and the lines of answers.
use relay_envelopes::{
    EnvelopeCounts, Refusal, envelope_id, envelopes_place, find_envelopes, put_done, put_envelope,
    put_refusal, put_tables,
};
use relay_job::RunFault;
use relay_text::Text;
use std::test::Fail;

#[test]
fn ids_are_words(rt: HostRuntime) {
    assert_eq!(rt; envelope_id(b"%envelope 17"), Some(b"17".as_slice()));
    assert_eq!(rt;
        envelope_id(b"%envelope \t<4bX@mail> "),
        Some(b"<4bX@mail>".as_slice())
    );
    assert_eq!(rt; envelope_id(b"%envelope"), None);
    assert_eq!(rt; envelope_id(b"%envelopes 17"), None);
    assert_eq!(rt; envelope_id(b"%envelope 17 18"), None);
    assert_eq!(rt; envelope_id(b"%envelope \xe4"), None);
}

#[test]
fn sections_stand_behind_the_tables(rt: HostRuntime) -> Result<(), Fail> {
    let text =
        b"%aliases\njoe: jim\n\n%envelope a\nMAIL FROM:<>\r\n\nRCPT TO:<joe>\n%envelope b\n%envelope c\n%%x";
    let place = envelopes_place(text);
    assert_eq!(rt; place.line, 3);
    let sections = find_envelopes(rt.alloc(), place)?;
    assert_eq!(rt; sections.len(), 3);
    let [a, b, c] = [sections[0], sections[1], sections[2]];
    assert_eq!(rt; (a.line, a.id), (4, b"a".as_slice()));
    assert_eq!(rt; a.bytes, b"MAIL FROM:<>\r\n\nRCPT TO:<joe>\n".as_slice());
    assert_eq!(rt;
        (b.line, b.id, b.bytes),
        (8, b"b".as_slice(), b"".as_slice())
    );
    assert_eq!(rt;
        (c.line, c.id, c.bytes),
        (9, b"c".as_slice(), b"%%x".as_slice())
    );
    Ok(())
}

#[test]
fn an_id_stands_once(rt: HostRuntime) {
    let fault = |text: &[u8]| find_envelopes(rt.alloc(), envelopes_place(text)).err();
    assert_eq!(rt;
        fault(b"%envelope a\n\n%envelope b\n%envelope a \n"),
        Some(RunFault::BadJob(4))
    );
    assert_eq!(rt;
        fault(b"%mx\n%envelope a\n%envelope\n"),
        Some(RunFault::BadJob(3))
    );
    assert_eq!(rt; fault(b"%envelope a\n%mx\n"), Some(RunFault::BadJob(2)));
    assert_eq!(rt; fault(b"joe\n"), None);
}

#[test]
fn answers_have_lines(rt: HostRuntime) -> Result<(), Fail> {
    let mut out = Vec::new(rt.alloc());
    let finding = Text::copy_of(rt.alloc(), b"finding loop alias joe")?;
    put_tables(&[finding], &mut out)?;
    put_envelope(b"17", &mut out)?;
    put_refusal(Refusal::BadEnvelope(2), &mut out)?;
    put_refusal(Refusal::TooManyNames, &mut out)?;
    put_refusal(Refusal::TooManyOwners, &mut out)?;
    put_refusal(Refusal::TooManyPairs, &mut out)?;
    put_refusal(Refusal::TooLong, &mut out)?;
    let counts = EnvelopeCounts::none().with_planned(3).with_refused();
    put_done(&counts, &mut out)?;
    let text =
        b"tables 1 findings\nfinding loop alias joe\nenvelope 17\nrefused line 2 bad envelope\nrefused too many names\nrefused too many owners\nrefused too many pairs\nrefused too long\ndone 2 envelopes 1 planned 1 refused 3 findings\n";
    assert_eq!(rt; out.as_slice(), text.as_slice());
    Ok(())
}
