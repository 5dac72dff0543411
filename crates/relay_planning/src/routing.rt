//! What a job's settings say of routes.
ghost use Rattle.std.specs.Prelude.{◌≡◌, ◌∷◌, ◌++◌, IfOk, OnOk};
ghost use Rattle.relay_planning.specs.Delivery.{routing_of};

use relay_job::{Job, Settings};
use relay_routes::RouteSettings;
use relay_text::{Seq, Text};
use std::alloc::{AllocError, Global};

/// Puts copies at the end.
pub(crate) fn push_copies(
    alloc: Global,
    texts: &[Text],
    names: &mut Vec<Text>,
) -> Result<(), AllocError>
    ensures { OnOk result (names.new.items ≡ names.old.items ++ texts.now) }
{
    for text in texts {
        names.push(Text::copy_of(alloc, text.as_bytes())?)?;
    }
    Ok(())
}

/// The relay's own names, by which it finds itself among mail exchangers (RFC 5321 section 5.1): its host name, its origin and its local
/// domains, in this order and as the settings have them, repeats included. `Err` where memory runs out.
pub fn own_names(alloc: Global, settings: &Settings) -> Result<Seq<Text>, AllocError>
    ensures { IfOk result (λ names. names ≡ settings.now.hostname ∷ settings.now.origin ∷ settings.now.destinations) }
{
    let mut names = Vec::new(alloc);
    names.push(Text::copy_of(alloc, settings.hostname.as_bytes())?)?;
    names.push(Text::copy_of(alloc, settings.origin.as_bytes())?)?;
    push_copies(alloc, settings.destinations.as_slice(), &mut names)?;
    Ok(Seq::of(names))
}

/// What a job's settings say of routes. `Err` where memory runs out.
pub(crate) fn route_settings_of(alloc: Global, job: &Job) -> Result<RouteSettings, AllocError>
    ensures { IfOk result (λ settings. settings ≡ (routing_of job.now).settings) }
{
    Ok(RouteSettings {
        own_names: own_names(alloc, &job.settings)?,
        delimiter: job.settings.delimiter,
        default_transport: job.settings.default_transport,
        seed: job.settings.seed,
    })
}
