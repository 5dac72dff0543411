//! The lines of tables that decide where an address goes.
use crate::routes::own_names;
use growth_answers::inputs::address;
use growth_answers::{Answer, Seen, Teller, Unready, case, judged, twice};
use relay_routes::{DecidingLine, ExchangerLine, Fate, deciding_line, exchanger_lines};
use relay_text::{Address, Text};
use std::alloc::Global;

const TRANSPORTS: &[u8] = b"# by hand\n.example.net relay:hub.example.com\nexample.net smtp:\n";

const EXCHANGES: &[u8] = b"example.net MX 10 a.example.net\n\
    example.net MX 20 relay.example.org\n\
    example.net MX 20 c.example.net\n";

fn is_line(line: &Option<DecidingLine>) -> bool {
    line.as_ref().is_some_and(|line| {
        line.line == 2
            && line.pattern.as_bytes() == b".example.net".as_slice()
            && line.result.as_bytes() == b"relay:hub.example.com".as_slice()
    })
}

fn is_decided(alloc: Global, address: &Address) -> Answer {
    match deciding_line(alloc, TRANSPORTS, address, Some(b'+')) {
        Ok(line) => judged(line, is_line),
        Err(_) => Answer::Refused,
    }
}

fn finds_the_line(alloc: Global) -> Result<Seen, Unready> {
    let address = address(alloc, b"u+x@a.b.example.net")?;
    Ok(twice!(is_decided(alloc, &address)))
}

fn is_exchanger(line: &ExchangerLine, number: usize, host: &[u8], fate: Fate) -> bool {
    line.line == number && line.host.as_bytes() == host && line.fate == fate
}

fn are_exchangers(lines: &[ExchangerLine]) -> bool {
    match lines {
        [first, own, last] => {
            is_exchanger(first, 1, b"a.example.net", Fate::Host)
                && is_exchanger(own, 2, b"relay.example.org", Fate::Own)
                && is_exchanger(last, 3, b"c.example.net", Fate::Discarded)
        }
        _ => false,
    }
}

fn are_told(alloc: Global, own_names: &[Text]) -> Answer {
    match exchanger_lines(alloc, EXCHANGES, b"example.net", own_names) {
        Ok(lines) => judged(lines, |lines| are_exchangers(lines)),
        Err(_) => Answer::Refused,
    }
}

fn tells_fates(alloc: Global) -> Result<Seen, Unready> {
    let own_names = own_names(alloc)?;
    Ok(twice!(are_told(alloc, &own_names)))
}

pub(crate) fn tell<R: Print + AllocGlobal>(teller: &mut Teller<'_, R>) {
    let alloc = teller.rt.alloc();
    case!(teller, "deciding_line", finds_the_line(alloc));
    case!(teller, "exchanger_lines", tells_fates(alloc));
}
