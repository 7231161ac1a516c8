use crate::texts::{add, calls, number, word};
use recovery_round::RecoveryRound;
use std::alloc::Global;
use std::test::Fail;

/// A round that awaits 2, 5 and 2 once more, due at 60.
const CALLS: &str = "
awaits 2 = true
awaits 3 = false
late 59 =
late 60 = 2 5 2
over = false
done 5 =
awaits 5 = false
late 61 = 2 2
closed 3 =
over = false
closed 2 =
late 99 =
over = true
";

#[test]
fn a_round_awaits_those_that_are_neither_done_nor_closed(rt: HostRuntime) -> Result<(), Fail> {
    let mut round = RecoveryRound::new(rt.alloc(), &[2, 5, 2], 60)?;
    for (call, wanted) in calls(rt.alloc(), CALLS)? {
        let answer = called(rt.alloc(), &mut round, call)?;
        assert_eq!(rt; answer.as_str(), wanted, "{call}");
    }
    Ok(())
}

fn called(alloc: Global, round: &mut RecoveryRound, call: &str) -> Result<String, Fail> {
    let mut answer = String::new(alloc);
    let mut words = call.split_whitespace();
    match word(&mut words)? {
        "awaits" => answer = format!(in alloc; "{}", round.awaits(number(&mut words)?))?,
        "over" => answer = format!(in alloc; "{}", round.is_over())?,
        "done" => round.done(number(&mut words)?),
        "closed" => round.closed(number(&mut words)?),
        _ => {
            for session in round.late(number(&mut words)?) {
                add(&mut answer, format!(in alloc; "{session}")?.as_str())?;
            }
        }
    }
    Ok(answer)
}
