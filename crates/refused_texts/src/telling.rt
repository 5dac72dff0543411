//! Tells of calls and of cases that take only the allocator, as `call!` and `case!` of growth_answers do. Each of these macros would be proved
//! again where it stands, and in each function that tells of many calls that is most of its proof; here it is done once.
use growth_answers::{Answer, Seen, Teller, Unready, made_anew};
use std::alloc::Global;

/// Makes a call, where it's asked for, and makes it again where it's refused memory.
pub(crate) fn tell_of_call<R: Print + AllocGlobal>(
    teller: &mut Teller<'_, R>,
    name: &str,
    call: fn(Global) -> Result<Answer, Unready>,
)
    requires { IsAlwaysCallable call }
{
    if teller.is_asked(name) {
        let alloc = teller.rt.alloc();
        let went = match call(alloc) {
            Ok(Answer::Refused) => made_anew(call(alloc)),
            Ok(answer) => Ok(Seen::at_once(answer)),
            Err(unready) => Err(unready),
        };
        teller.tell(name, went);
    }
}

/// Makes a case, where it's asked for.
pub(crate) fn tell_of_case<R: Print + AllocGlobal>(
    teller: &mut Teller<'_, R>,
    name: &str,
    case: fn(Global) -> Result<Seen, Unready>,
)
    requires { IsAlwaysCallable case }
{
    if teller.is_asked(name) {
        let alloc = teller.rt.alloc();
        teller.tell(name, case(alloc));
    }
}
