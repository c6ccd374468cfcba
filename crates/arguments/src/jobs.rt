// Reading the arguments into a job.
ghost use Rattle.std.specs.Prelude.{◌≡◌, ◌<◌, ◌⊎◌, Some, None, Ok, IfOk, MatchResult};
ghost use Rattle.arguments.specs.Faults.{told, told_of, count_fault, job_fault, fault_of};
ghost use Rattle.bounded.specs.Held.{held};
ghost use Rattle.arguments.specs.Jobs.{HasShared, ReadsAll, timed_of};

use crate::faults::{Argument, Fault};
use crate::job::{Command, Job};
use crate::timed::{Shared, Timed};
use crate::words::{read_days, read_duration, read_interval, read_label, read_recurring};
use event::events::Event;
use series::records::Series;
use series::uids::Uid;

// The job of the words, where the UID and the words of the days were read already: the first that is refused decides.
fn read_job<S: Copy>(
    uid: Uid,
    words: &Shared<'_>,
    timed: Result<Timed<S>, Fault>,
) -> Result<Job<S>, Fault>
    requires { held uid.octets ≡ words.now.uid.now }
    ensures fault { told_of result ≡ job_fault words.now (told_of timed) }
    ensures value { IfOk result (λ j. HasShared words.now j × (timed ≡ Ok (timed_of j))) }
{
    let Timed { source, clock } = timed?;
    let duration = read_duration(words.duration)?;
    let text = read_label(words.text, Argument::Text)?;
    let days = read_days(words.first, words.last)?;
    Ok(Job {
        event: Event {
            uid,
            series: Series {
                source,
                clock,
                duration,
                text,
            },
        },
        days,
    })
}

// The arguments of the form with an interval, in their order.
const ORDER: [Argument; 6] = [
    Argument::Uid,
    Argument::Interval,
    Argument::Duration,
    Argument::Text,
    Argument::First,
    Argument::Last,
];

// What is wrong with so many words.
fn miscounted(count: usize) -> Fault
    requires { count < 6 ⊎ 7 < count }
    ensures { count_fault count ≡ Some (told result) }
{
    ORDER
        .get(count)
        .map_or(Fault::Surplus, |argument| Fault::Missing(*argument))
}

// The job of the words of a command line: with an interval, or with a start and a rule in its place.
pub fn read(words: &[&[u8]]) -> Result<Command, Fault>
    ensures { MatchResult result (λ j. (fault_of words.now ≡ None) × ReadsAll words.now j) (λ f. fault_of words.now ≡ Some (told f)) }
{
    match *words {
        [uid, interval, duration, text, first, last] => {
            let shared = Shared {
                uid,
                duration,
                text,
                first,
                last,
            };
            // the UID first: one that is refused spares the reading of the days
            let uid = read_label(uid, Argument::Uid)?;
            let job = read_job(uid, &shared, read_interval(interval))?;
            Ok(Command::ByInterval(job))
        }
        [uid, start, rule, duration, text, first, last] => {
            let shared = Shared {
                uid,
                duration,
                text,
                first,
                last,
            };
            let uid = read_label(uid, Argument::Uid)?;
            let job = read_job(uid, &shared, read_recurring(start, rule))?;
            Ok(Command::ByRule(job))
        }
        _ => Err(miscounted(words.len())),
    }
}
