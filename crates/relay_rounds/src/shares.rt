//! How threads share work.
ghost use Rattle.std.specs.Prelude.{◌<◌, ◌≤◌};

// Up to so many threads are started one after another from one thread. The kernel gives each of these a processor of its own at
// once; a thread that is started by one that has just begun itself waits behind it for some milliseconds, which is as long as a
// whole round. More are halved first, so that the stack grows as their logarithm.
const FEW_THREADS: usize = 8;

// It pays to start a thread for so many keys.
const LEAST_SHARE: usize = 4096;

/// How many of the workers go to a new thread, while this one starts the rest.
pub(crate) fn share_of(workers: usize) -> usize
    requires { 2 ≤ workers }
    ensures some { 1 ≤ result }
    ensures rest { result < workers }
{
    if workers <= FEW_THREADS {
        return 1;
    }
    workers / 2
}

/// How many of so many keys are the share of each of so many workers, at least. Two shares are twice the least one.
pub(crate) fn share_len(keys: usize, workers: usize) -> usize
    requires { 1 ≤ workers }
    ensures { 1 ≤ result }
{
    keys.div_ceil(workers).max(LEAST_SHARE)
}
