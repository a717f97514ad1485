//! Places in a JSON text.

ghost use Rattle.std.specs.Fmt.{DisplaysOnOk};
ghost use Rattle.std.specs.Prelude.{◌≡◌, Some};
ghost use Rattle.topo_script.specs.Paths.{key_name, path_text, step_text, three_text};

use std::fmt;

/// A key that the forms know.
#[derive(Clone, Copy, Debug, PartialEq, Eq)]
pub enum Key {
    A,
    B,
    Call,
    Caller,
    Cost,
    Crossed,
    Crossings,
    Deleted,
    Edge,
    Edges,
    Effort,
    End,
    History,
    Id,
    Kind,
    Limits,
    Lonely,
    Newcomer,
    NextCrossing,
    NextEdge,
    Open,
    Parts,
    Picture,
    Planarize,
    Price,
    Prices,
    Progress,
    Refused,
    Reopen,
    Reply,
    Rotations,
    Seconds,
    Seed,
    Sign,
    Start,
    Threads,
    Tries,
    Version,
    Vertex,
    Vertices,
    Workers,
}

impl Key {
    /// The key as it is in a text.
    pub fn name(self) -> &'static str
        ensures { result.now ≡ key_name self }
    {
        match self {
            Key::A => "a",
            Key::B => "b",
            Key::Call => "call",
            Key::Caller => "caller",
            Key::Cost => "cost",
            Key::Crossed => "crossed",
            Key::Crossings => "crossings",
            Key::Deleted => "deleted",
            Key::Edge => "edge",
            Key::Edges => "edges",
            Key::Effort => "effort",
            Key::End => "end",
            Key::History => "history",
            Key::Id => "id",
            Key::Kind => "kind",
            Key::Limits => "limits",
            Key::Lonely => "lonely",
            Key::Newcomer => "newcomer",
            Key::NextCrossing => "next_crossing",
            Key::NextEdge => "next_edge",
            Key::Open => "open",
            Key::Parts => "parts",
            Key::Picture => "picture",
            Key::Planarize => "planarize",
            Key::Price => "price",
            Key::Prices => "prices",
            Key::Progress => "progress",
            Key::Refused => "refused",
            Key::Reopen => "reopen",
            Key::Reply => "reply",
            Key::Rotations => "rotations",
            Key::Seconds => "seconds",
            Key::Seed => "seed",
            Key::Sign => "sign",
            Key::Start => "start",
            Key::Threads => "threads",
            Key::Tries => "tries",
            Key::Version => "version",
            Key::Vertex => "vertex",
            Key::Vertices => "vertices",
            Key::Workers => "workers",
        }
    }
}

/// A step into a value: to a member by its key, or to an element by its index from 0.
#[derive(Clone, Copy, Debug, PartialEq, Eq)]
pub enum Step {
    Member(Key),
    Element(usize),
}

/// A place in a text: the steps that lead there from the whole. It is printed as `$` and then, for
/// each step, `/` and the key or the index. No form nests deeper than eight steps, and a path
/// holds no more.
#[derive(Clone, Copy, Debug, PartialEq, Eq)]
pub struct JsonPath {
    pub first: Option<Step>,
    pub second: Option<Step>,
    pub third: Option<Step>,
    pub fourth: Option<Step>,
    pub fifth: Option<Step>,
    pub sixth: Option<Step>,
    pub seventh: Option<Step>,
    pub eighth: Option<Step>,
}

impl JsonPath {
    ghost use Rattle.topo_script.specs.Paths.{under};

    /// The path of the whole text, `$`.
    pub const WHOLE: JsonPath = JsonPath {
        first: None,
        second: None,
        third: None,
        fourth: None,
        fifth: None,
        sixth: None,
        seventh: None,
        eighth: None,
    };

    /// The path of what one step leads to.
    #[tactic(auto, unfolding(crate::specs::Paths::under))]
    fn then(self, step: Step) -> Self
        ensures { result ≡ under self step }
    {
        let step = Some(step);
        let JsonPath {
            first,
            second,
            third,
            fourth,
            fifth,
            sixth,
            seventh,
            eighth: _,
        } = self;
        if first.is_none() {
            JsonPath {
                first: step,
                ..self
            }
        } else if second.is_none() {
            JsonPath {
                second: step,
                ..self
            }
        } else if third.is_none() {
            JsonPath {
                third: step,
                ..self
            }
        } else if fourth.is_none() {
            JsonPath {
                fourth: step,
                ..self
            }
        } else if fifth.is_none() {
            JsonPath {
                fifth: step,
                ..self
            }
        } else if sixth.is_none() {
            JsonPath {
                sixth: step,
                ..self
            }
        } else if seventh.is_none() {
            JsonPath {
                seventh: step,
                ..self
            }
        } else {
            JsonPath {
                eighth: step,
                ..self
            }
        }
    }

    ghost use Rattle.topo_script.specs.Paths.{member_of, element_of};

    /// The path of a member.
    pub fn member(self, key: Key) -> Self
        ensures { result ≡ member_of self key }
    {
        self.then(Step::Member(key))
    }

    /// The path of an element.
    pub fn element(self, index: usize) -> Self
        ensures { result ≡ element_of self index }
    {
        self.then(Step::Element(index))
    }
}

/// Prints a step, where there is one.
fn write_step<W: fmt::Write>(step: &Option<Step>, f: &mut fmt::Formatter<W>) -> fmt::Result
    ensures { DisplaysOnOk W.write_str_gives f.old result (Some (step_text step.now)) f.new }
{
    match step {
        Some(Step::Member(key)) => {
            let name = key.name();
            write!(f, "/{name}")
        }
        Some(Step::Element(index)) => write!(f, "/{index}"),
        None => Ok(()),
    }
}

/// Prints three steps, where they are there.
fn write_three<W: fmt::Write>(
    a: &Option<Step>,
    b: &Option<Step>,
    c: &Option<Step>,
    f: &mut fmt::Formatter<W>,
) -> fmt::Result
    ensures { DisplaysOnOk W.write_str_gives f.old result
        (Some (three_text a.now b.now c.now)) f.new }
{
    write_step(a, f)?;
    write_step(b, f)?;
    write_step(c, f)
}

impl fmt::Display for JsonPath {
    ghost output = { λ path. Some (path_text path) };

    fn fmt<W: fmt::Write>(&self, f: &mut fmt::Formatter<W>) -> fmt::Result {
        f.write_str("$")?;
        write_three(&self.first, &self.second, &self.third, f)?;
        write_three(&self.fourth, &self.fifth, &self.sixth, f)?;
        write_step(&self.seventh, f)?;
        write_step(&self.eighth, f)
    }
}
