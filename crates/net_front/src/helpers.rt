//! When threads that serve are made, and when they go.

ghost use Rattle.std.specs.Prelude.{◌≡◌};
ghost use Rattle.net_front.specs.Helpers as helpers;

/// Below so many threads that wait for a connection, more are made.
const FEW_WAITING: u64 = 32;

/// Above so many, one that served goes.
const MANY_WAITING: u64 = 128;

/// What the host of the threads does next.
#[derive(Clone, Copy, Debug, PartialEq, Eq)]
pub enum HostStep {
    /// It makes no more helpers.
    End,
    /// It rests until somebody rings.
    Rest,
    /// It tries again in a while.
    Pause,
    /// It makes a helper.
    Make,
}

/// Whether a helper is wanted: few threads wait for a connection, and fewer than `most` live.
pub fn is_wanted(waiting: u64, living: u64, most: u64) -> bool
    ensures { result ≡ helpers.is_wanted waiting living most }
{
    waiting < FEW_WAITING && living < most
}

/// Whether the host looks again where so many waited and one fewer does.
pub fn is_few(waited: u64) -> bool
    ensures { result ≡ helpers.is_few waited }
{
    waited <= FEW_WAITING
}

/// Whether a helper that has served goes: many wait.
pub fn is_crowded(waiting: u64) -> bool
    ensures { result ≡ helpers.is_crowded waiting }
{
    MANY_WAITING < waiting
}

/// What the host does next, where no connection will come or some may, at most `most` are served at once, a helper is
/// wanted or isn't, and one found no memory since the host looked last, or none did.
pub fn host_step(is_over: bool, most: u64, wanted: bool, has_lacked: bool) -> HostStep
    ensures { result ≡ helpers.host_step is_over most wanted has_lacked }
{
    if is_over || most == 0 {
        HostStep::End
    } else if !wanted {
        HostStep::Rest
    } else if has_lacked {
        HostStep::Pause
    } else {
        HostStep::Make
    }
}

/// What it does where no thread could be made, and so many live.
pub fn step_without(living: u64) -> HostStep
    ensures { result ≡ helpers.step_without living }
{
    if living == 0 {
        HostStep::End
    } else {
        HostStep::Pause
    }
}
