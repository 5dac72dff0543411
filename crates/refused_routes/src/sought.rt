//! What a route is found with.
use crate::routes::{mailbox_transport, router};
use growth_answers::inputs::address;
use growth_answers::{Seen, Teller, Unready};
use relay_routes::{Router, Via};
use relay_text::Address;
use std::alloc::Global;

/// A router, how mailboxes are reached, and the address of a recipient.
#[derive(Clone, Copy)]
pub(crate) struct Sought<'a> {
    pub router: &'a Router,
    pub via: &'a Via,
    pub address: &'a Address,
}

fn by_router<F: FnOnce(Global, Sought<'_>) -> Result<Seen, Unready>>(
    alloc: Global,
    via: &Via,
    address: &Address,
    case: F,
) -> Result<Seen, Unready>
    requires { F.IsAlwaysCallable case }
{
    let router = router(alloc)?;
    case(
        alloc,
        Sought {
            router: &router,
            via,
            address,
        },
    )
}

fn by_transport<F: FnOnce(Global, Sought<'_>) -> Result<Seen, Unready>>(
    alloc: Global,
    address: &Address,
    case: F,
) -> Result<Seen, Unready>
    requires { F.IsAlwaysCallable case }
{
    let via = mailbox_transport(alloc)?;
    by_router(alloc, &via, address, case)
}

/// How a case goes for the address that a text spells. Each part has an owner of its own, since one that owns all is proved far more slowly.
fn went<F: FnOnce(Global, Sought<'_>) -> Result<Seen, Unready>>(
    alloc: Global,
    text: &[u8],
    case: F,
) -> Result<Seen, Unready>
    requires { F.IsAlwaysCallable case }
{
    let address = address(alloc, text)?;
    by_transport(alloc, &address, case)
}

/// Makes such a case, where it's asked for.
pub(crate) fn tell_sought<
    R: Print + AllocGlobal,
    F: FnOnce(Global, Sought<'_>) -> Result<Seen, Unready>,
>(teller: &mut Teller<'_, R>, name: &str, text: &[u8], case: F)
    requires { F.IsAlwaysCallable case }
{
    if teller.is_asked(name) {
        let alloc = teller.rt.alloc();
        teller.tell(name, went(alloc, text, case));
    }
}
