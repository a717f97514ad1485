//! The number and the text of each fault.

use std::alloc::Global;
use std::error::Error;
use std::process::Abort;
use std::test::Fail;
use topo_book::ReplayFault;
use topo_core::calls::Refusal;
use topo_core::limits::LimitsFault;
use topo_graph::GraphFault;
use topo_io::RunFault;
use topo_price::table::PriceFault;
use topo_route::plan::PlanFault;
use topo_rows::LoadFault;
use topo_script::ScriptFault;
use topo_script::path::{JsonPath, Key};
use topo_test_support::errors::text_of_error;

/// A fault that `?` has made an error of any kind is printed as this text.
fn check_error<E: Error>(rt: &impl Abort, alloc: Global, fault: E, text: &str) -> Result<(), Fail> {
    let printed = text_of_error(alloc, fault)?;
    assert!(rt; printed.as_str() == text, "{printed}");
    Ok(())
}

/// A fault is printed as this text, which begins with its number and a space, and so is the error
/// of any kind that `?` makes of it.
fn check_number<E: Error + Copy>(
    rt: &impl Abort,
    alloc: Global,
    fault: E,
    number: u32,
    text: &str,
) -> Result<(), Fail> {
    let printed = format!(in alloc; "{fault}")?;
    assert!(rt; printed.as_str() == text, "{printed}");
    let front = format!(in alloc; "{number} ")?;
    assert!(rt; text.starts_with(front.as_str()), "{number}: {printed}");
    check_error(rt, alloc, fault, text)
}

/// A fault of a command, or what it may come of.
#[derive(Clone, Copy)]
enum Fault {
    Run(RunFault),
    Script(ScriptFault),
    Load(LoadFault),
    Price(PriceFault),
    Limits(LimitsFault),
    Replay(ReplayFault),
    Plan(PlanFault),
    Refused(Refusal),
}

/// A fault is printed as this text. That of a command has status 3 where memory ran out, and else
/// 1.
fn check_fault(rt: &impl Abort, alloc: Global, fault: Fault, text: &str) -> Result<(), Fail> {
    match fault {
        Fault::Run(fault) => {
            let status = if text.ends_with("Memory") { 3 } else { 1 };
            assert!(rt; fault.status() == status, "{text}");
            check_number(rt, alloc, fault, fault.fault().number(), text)
        }
        Fault::Script(fault) => check_error(rt, alloc, fault, text),
        Fault::Load(fault) => check_error(rt, alloc, fault, text),
        Fault::Price(fault) => check_error(rt, alloc, fault, text),
        Fault::Limits(fault) => check_error(rt, alloc, fault, text),
        Fault::Replay(fault) => check_number(rt, alloc, fault, fault.fault().number(), text),
        Fault::Plan(fault) => check_number(rt, alloc, fault, fault.fault().number(), text),
        Fault::Refused(why) => check_number(rt, alloc, why, why.fault().number(), text),
    }
}

/// Faults that name no path, as they are printed.
const FAULTS: &[(Fault, &str)] = &[
    (Fault::Run(RunFault::Memory), "8 Memory"),
    (
        Fault::Run(RunFault::Price(PriceFault::BadPrice(7))),
        "10 BadPrice 7",
    ),
    (Fault::Run(RunFault::BadLimits), "11 BadLimits"),
    (Fault::Run(RunFault::Load(LoadFault::TooMany)), "20 TooMany"),
    (Fault::Run(RunFault::Load(LoadFault::BadPath)), "21 BadPath"),
    (
        Fault::Run(RunFault::Load(LoadFault::BadCrossing)),
        "22 BadCrossing",
    ),
    (
        Fault::Run(RunFault::Load(LoadFault::BadRotation)),
        "23 BadRotation",
    ),
    (
        Fault::Run(RunFault::Load(LoadFault::NotConnected)),
        "24 NotConnected",
    ),
    (
        Fault::Run(RunFault::Load(LoadFault::NotPlanar)),
        "25 NotPlanar",
    ),
    (Fault::Run(RunFault::Load(LoadFault::Memory)), "8 Memory"),
    (
        Fault::Run(RunFault::Script(ScriptFault::NotJson)),
        "50 NotJson",
    ),
    (
        Fault::Run(RunFault::Script(ScriptFault::TooLong)),
        "51 TooLong",
    ),
    (
        Fault::Run(RunFault::Script(ScriptFault::BadShape(JsonPath::WHOLE))),
        "52 BadShape $",
    ),
    (
        Fault::Run(RunFault::Script(ScriptFault::BadVersion)),
        "53 BadVersion",
    ),
    (
        Fault::Run(RunFault::Script(ScriptFault::Memory)),
        "8 Memory",
    ),
    (
        Fault::Run(RunFault::Graph(GraphFault::Loop(3))),
        "80 Loop 3",
    ),
    (
        Fault::Run(RunFault::Graph(GraphFault::NoEnd(0))),
        "81 NoEnd 0",
    ),
    (
        Fault::Run(RunFault::Graph(GraphFault::TooLarge)),
        "82 TooLarge",
    ),
    (
        Fault::Run(RunFault::Graph(GraphFault::NotPlanarized(17))),
        "83 NotPlanarized 17",
    ),
    (
        Fault::Run(RunFault::Graph(GraphFault::NotShown)),
        "85 NotShown",
    ),
    (Fault::Run(RunFault::ReadFault), "55 ReadFault"),
    (Fault::Run(RunFault::WriteFault), "56 WriteFault"),
    (Fault::Run(RunFault::NoSeat), "41 NoSeat"),
    (Fault::Run(RunFault::Mismatch(1, 2)), "40 Mismatch 1 2"),
    (Fault::Run(RunFault::WrongReply(17)), "60 WrongReply 17"),
    (Fault::Run(RunFault::WrongPicture), "61 WrongPicture"),
    (Fault::Script(ScriptFault::BadVersion), "53 BadVersion"),
    (Fault::Load(LoadFault::NotPlanar), "25 NotPlanar"),
    (Fault::Price(PriceFault::BadPrice(63)), "10 BadPrice 63"),
    (Fault::Limits(LimitsFault::BadLimits), "11 BadLimits"),
    (
        Fault::Replay(ReplayFault::WrongReply(17)),
        "60 WrongReply 17",
    ),
    (Fault::Replay(ReplayFault::Memory), "8 Memory"),
    (Fault::Plan(PlanFault::WrongLength), "30 WrongLength"),
    (Fault::Plan(PlanFault::UnevenFace), "31 UnevenFace"),
    (Fault::Plan(PlanFault::TooSteep), "32 TooSteep"),
    (Fault::Plan(PlanFault::TargetNotZero), "33 TargetNotZero"),
    (Fault::Plan(PlanFault::NotARoute), "34 NotARoute"),
    (Fault::Plan(PlanFault::NotLeast), "35 NotLeast"),
    (Fault::Plan(PlanFault::NotFirst), "36 NotFirst"),
    (Fault::Refused(Refusal::NoVertex), "1 NoVertex"),
    (Fault::Refused(Refusal::SameEnds), "2 SameEnds"),
    (Fault::Refused(Refusal::NoPosition), "3 NoPosition"),
    (Fault::Refused(Refusal::NoEdge), "4 NoEdge"),
    (Fault::Refused(Refusal::BadKind), "5 BadKind"),
    (Fault::Refused(Refusal::Cut(3)), "6 Cut 3"),
    (Fault::Refused(Refusal::Full), "7 Full"),
    (Fault::Refused(Refusal::Memory), "8 Memory"),
    (Fault::Refused(Refusal::NoRoute), "9 NoRoute"),
];

#[test]
fn faults_are_errors_that_print_their_numbers(rt: HostRuntime) -> Result<(), Fail> {
    for (fault, text) in FAULTS {
        check_fault(&rt, rt.alloc(), *fault, *text)?;
    }
    Ok(())
}

#[test]
fn faults_at_paths(rt: HostRuntime) -> Result<(), Fail> {
    let workers = JsonPath::WHOLE.member(Key::Workers);
    let deep = workers.element(0).element(3).element(1);
    let sixth = deep.member(Key::Call).member(Key::NextEdge);
    let eighth = sixth.member(Key::Open).element(2);
    let faults = [
        (ScriptFault::BadShape(workers), "52 BadShape $/workers"),
        (ScriptFault::BadNumber(deep), "54 BadNumber $/workers/0/3/1"),
        (
            ScriptFault::BadNumber(sixth),
            "54 BadNumber $/workers/0/3/1/call/next_edge",
        ),
        (
            ScriptFault::BadShape(eighth),
            "52 BadShape $/workers/0/3/1/call/next_edge/open/2",
        ),
    ];
    for (fault, text) in faults {
        check_fault(&rt, rt.alloc(), Fault::Script(fault), text)?;
        check_fault(&rt, rt.alloc(), Fault::Run(RunFault::Script(fault)), text)?;
    }
    Ok(())
}

/// The room that the program has for the line of a fault.
const MAX_FAULT_LINE_BYTES: usize = 192;

#[test]
fn the_longest_line(rt: HostRuntime) -> Result<(), Fail> {
    let mut path = JsonPath::WHOLE;
    for _ in 0..8 {
        path = path.element(usize::MAX);
    }
    let fault = RunFault::Script(ScriptFault::BadNumber(path));
    let line = format!(in rt.alloc(); "planar: {fault}\n")?;
    assert!(rt; line.len() == 191 && line.len() <= MAX_FAULT_LINE_BYTES);
    Ok(())
}
