//! What lines of a session ask for beside commands, in envelopes and without, and what they open.

use crate::commands::{TestRuntime, writes};
use topo_cli::Verb;

/// Each line of the first text is answered by the line of the second.
fn check<R: TestRuntime>(rt: &R, read: &str, answers: &str) {
    let mut reader = read.as_bytes();
    writes(rt, Verb::Serve, &mut reader, Ok(()), answers);
}

/// Questions on a triangle with a vertex more outside it.
const TRIANGLE: &str = "\
{\"version\":2,\"prices\":[3,null]}
[\"grow\",0,0,1]
[\"insert\",1,2,0]
[\"grow\",0,1,0]
[\"vertex\",0]
[\"edge\",1]
[\"edge\",2]
[\"edge\",4]
[\"vertex\",4]
[\"face\",0,0,\"forward\"]
[\"face\",0,0,\"back\"]
[\"face\",0,1,\"back\"]
[\"face\",9,0,\"back\"]
[\"route\",1,3]
[\"route\",1,1]
[\"route\",1,4]
";

/// The answers to the questions of a triangle.
const TRIANGLE_ANSWERS: &str = "\
{\"crossings\":0,\"edges\":1,\"faces\":1,\"segments\":1,\"vertices\":2}
{\"edge\":1,\"vertex\":2}
{\"crossed\":[],\"edge\":2,\"end\":0,\"price\":0,\"start\":0}
{\"edge\":3,\"vertex\":3}
{\"edges\":[0,3,1],\"ends\":[\"a\",\"a\",\"a\"]}
{\"a\":0,\"b\":2,\"crossings\":[],\"id\":1,\"kind\":1,\"price\":null}
{\"a\":1,\"b\":2,\"crossings\":[],\"id\":2,\"kind\":0,\"price\":3}
{\"refused\":[4,\"NoEdge\"]}
{\"refused\":[1,\"NoVertex\"]}
{\"darts\":[[0,0,\"forward\"],[2,0,\"forward\"],[1,0,\"back\"]]}
{\"darts\":[[0,0,\"back\"],[3,0,\"forward\"],[3,0,\"back\"],[1,0,\"forward\"],[2,0,\"back\"]]}
{\"refused\":[71,\"NoDart\"]}
{\"refused\":[4,\"NoEdge\"]}
{\"crossed\":[],\"end\":0,\"price\":0,\"start\":0}
{\"refused\":[2,\"SameEnds\"]}
{\"refused\":[1,\"NoVertex\"]}
";

/// Questions on the same with a vertex inside, and an edge that crosses a side.
const CROSSED: &str = "\
{\"version\":2,\"prices\":[3,null]}
[\"grow\",0,0,1]
[\"insert\",1,2,0]
[\"grow\",0,1,0]
[\"insert\",1,3,0]
[\"grow\",2,0,0]
[\"route\",3,4]
[\"insert\",3,4,1]
[\"edge\",2]
[\"edge\",0]
[\"edge\",6]
[\"route\",3,4]
[\"face\",6,1,\"forward\"]
[\"vertex\",4]
[\"delete\",6]
";

/// The answers to the questions of crossed edges.
const CROSSED_ANSWERS: &str = "\
{\"crossings\":0,\"edges\":1,\"faces\":1,\"segments\":1,\"vertices\":2}
{\"edge\":1,\"vertex\":2}
{\"crossed\":[],\"edge\":2,\"end\":0,\"price\":0,\"start\":0}
{\"edge\":3,\"vertex\":3}
{\"crossed\":[],\"edge\":4,\"end\":0,\"price\":0,\"start\":0}
{\"edge\":5,\"vertex\":4}
{\"crossed\":[[2,0,\"back\"]],\"end\":0,\"price\":3,\"start\":0}
{\"crossed\":[[2,0,\"back\"]],\"edge\":6,\"end\":0,\"price\":3,\"start\":0}
{\"a\":1,\"b\":2,\"crossings\":[[0,6,\"rtl\"]],\"id\":2,\"kind\":0,\"price\":3}
{\"a\":0,\"b\":1,\"crossings\":[],\"id\":0,\"kind\":0,\"price\":3}
{\"a\":3,\"b\":4,\"crossings\":[[0,2,\"ltr\"]],\"id\":6,\"kind\":1,\"price\":null}
{\"crossed\":[[2,1,\"back\"]],\"end\":1,\"price\":3,\"start\":0}
{\"darts\":[[6,1,\"forward\"],[5,0,\"back\"],[1,0,\"back\"],[0,0,\"forward\"],[2,0,\"forward\"]]}
{\"edges\":[5,6],\"ends\":[\"b\",\"b\"]}
{\"deleted\":6}
";

/// Lines where no session is open, envelopes, and openings.
const ENVELOPES: &str = "\
\"about\"
\"counts\"
[\"edge\",0]
[\"grow\",0]
{\"open\":{\"version\":1,\"limits\":{\"crossings\":0,\"edges\":0,\"vertices\":0}}}
{\"call\":{\"open\":{\"version\":1}},\"id\":\"first\"}
{\"call\":[\"grow\",0,0,0],\"caller\":3,\"id\":7}
{\"call\":[\"route\",0,0]}
{\"call\":[\"grow\",0],\"id\":\"\\u0041\\n\\\"\"}
{\"call\":\"counts\",\"caller\":16,\"id\":1}
{\"call\":\"counts\",\"id\":-1}
{\"call\":\"counts\",\"id\":null}
{\"call\":\"counts\",\"key\":1,\"id\":1}
{\"call\":{\"call\":\"counts\"},\"id\":1}
{\"open\":{\"version\":1,\"prices\":[1,0]}}
{\"open\":{\"version\":3}}
{\"call\":{\"open\":{\"version\":1,\"start\":{\"crossings\":[],\"edges\":[{\"a\":0,\"b\":1,\"crossings\":[-1],\"id\":0,\"kind\":0}],\"next_crossing\":0,\"next_edge\":1,\"rotations\":[[0],[0]]}}}}
\"counts\"
{\"open\":{\"version\":1}}
\"counts\"
";

/// The answers to the calls in envelopes.
const ENVELOPES_ANSWERS: &str = "\
{\"limits\":{\"crossings\":1048576,\"edges\":65536,\"vertices\":65536},\"program\":\"planar\",\"requests\":[\"about\",\"counts\",\"delete\",\"edge\",\"face\",\"forget\",\"grow\",\"insert\",\"open\",\"picture\",\"planarize\",\"planned\",\"renumber\",\"reopen\",\"report\",\"route\",\"undo\",\"vertex\"],\"version\":\"0.5.0\"}
{\"fault\":[72,\"NotOpen\"]}
{\"fault\":[72,\"NotOpen\"]}
{\"fault\":[52,\"BadShape\",\"$\"]}
{\"fault\":[11,\"BadLimits\"]}
{\"answer\":{\"crossings\":0,\"edges\":1,\"faces\":1,\"segments\":1,\"vertices\":2},\"id\":\"first\"}
{\"answer\":{\"edge\":1,\"vertex\":2},\"id\":7}
{\"answer\":{\"refused\":[2,\"SameEnds\"]}}
{\"answer\":{\"fault\":[52,\"BadShape\",\"$/call\"]},\"id\":\"A\\n\\\"\"}
{\"answer\":{\"fault\":[54,\"BadNumber\",\"$/caller\"]},\"id\":1}
{\"answer\":{\"fault\":[54,\"BadNumber\",\"$/id\"]}}
{\"answer\":{\"fault\":[52,\"BadShape\",\"$/id\"]}}
{\"answer\":{\"fault\":[52,\"BadShape\",\"$\"]}}
{\"answer\":{\"fault\":[52,\"BadShape\",\"$/call\"]},\"id\":1}
{\"fault\":[10,\"BadPrice\",1]}
{\"fault\":[53,\"BadVersion\"]}
{\"answer\":{\"fault\":[54,\"BadNumber\",\"$/call/open/start/edges/0/crossings/0\"]}}
{\"crossings\":0,\"edges\":2,\"faces\":1,\"segments\":2,\"vertices\":3}
{\"crossings\":0,\"edges\":1,\"faces\":1,\"segments\":1,\"vertices\":2}
{\"crossings\":0,\"edges\":1,\"faces\":1,\"segments\":1,\"vertices\":2}
";

/// Calls that are taken back, histories that are forgotten, ids that are closed up, and a report that a session
/// goes on from.
const TAKEN_BACK: &str = "\
{\"version\":2,\"prices\":[3,null]}
[\"undo\",0]
[\"undo\",1]
[\"grow\",0,0,1]
[\"insert\",1,2,0]
[\"grow\",0,1,0]
[\"insert\",1,3,0]
[\"grow\",2,0,0]
[\"insert\",3,4,1]
[\"insert\",0,0,0]
[\"undo\",2]
[\"insert\",3,4,1]
[\"delete\",3]
[\"undo\",4]
[\"insert\",1,3,0]
[\"undo\",5]
[\"grow\",0,1,0]
[\"insert\",1,3,0]
[\"grow\",2,0,0]
[\"insert\",3,4,1]
[\"delete\",3]
\"forget\"
[\"undo\",1]
[\"insert\",0,3,0]
\"renumber\"
[\"edge\",8]
[\"undo\",1]
{\"open\":{\"version\":1}}
[\"grow\",0,0,0]
\"report\"
{\"reopen\":{\"version\":1}}
{\"reopen\":{\"history\":[{\"call\":[\"grow\",0,0,0],\"caller\":0,\"reply\":{\"edge\":1,\"vertex\":2}}],\"limits\":{\"crossings\":1048576,\"edges\":65536,\"vertices\":65536},\"picture\":{\"crossings\":[],\"edges\":[{\"a\":0,\"b\":1,\"crossings\":[],\"id\":0,\"kind\":0},{\"a\":0,\"b\":2,\"crossings\":[],\"id\":1,\"kind\":0}],\"next_crossing\":0,\"next_edge\":2,\"rotations\":[[0,1],[0],[1]]},\"prices\":[],\"start\":{\"crossings\":[],\"edges\":[{\"a\":0,\"b\":1,\"crossings\":[],\"id\":0,\"kind\":0}],\"next_crossing\":0,\"next_edge\":1,\"rotations\":[[0],[0]]},\"version\":1}}
[\"undo\",1]
\"counts\"
{\"call\":{\"reopen\":{\"history\":[{\"call\":[\"grow\",0,0,0],\"caller\":0,\"reply\":{\"edge\":2,\"vertex\":2}}],\"limits\":{\"crossings\":1048576,\"edges\":65536,\"vertices\":65536},\"picture\":{\"crossings\":[],\"edges\":[{\"a\":0,\"b\":1,\"crossings\":[],\"id\":0,\"kind\":0},{\"a\":0,\"b\":2,\"crossings\":[],\"id\":1,\"kind\":0}],\"next_crossing\":0,\"next_edge\":2,\"rotations\":[[0,1],[0],[1]]},\"prices\":[],\"start\":{\"crossings\":[],\"edges\":[{\"a\":0,\"b\":1,\"crossings\":[],\"id\":0,\"kind\":0}],\"next_crossing\":0,\"next_edge\":1,\"rotations\":[[0],[0]]},\"version\":1}}}
";

/// The answers while calls are taken back.
const TAKEN_BACK_ANSWERS: &str = "\
{\"crossings\":0,\"edges\":1,\"faces\":1,\"segments\":1,\"vertices\":2}
{\"crossings\":0,\"edges\":1,\"undone\":0,\"vertices\":2}
{\"fault\":[70,\"NothingToUndo\",1]}
{\"edge\":1,\"vertex\":2}
{\"crossed\":[],\"edge\":2,\"end\":0,\"price\":0,\"start\":0}
{\"edge\":3,\"vertex\":3}
{\"crossed\":[],\"edge\":4,\"end\":0,\"price\":0,\"start\":0}
{\"edge\":5,\"vertex\":4}
{\"crossed\":[[2,0,\"back\"]],\"edge\":6,\"end\":0,\"price\":3,\"start\":0}
{\"refused\":[2,\"SameEnds\"]}
{\"crossings\":0,\"edges\":6,\"undone\":2,\"vertices\":5}
{\"crossed\":[[2,0,\"back\"]],\"edge\":6,\"end\":0,\"price\":3,\"start\":0}
{\"deleted\":3}
{\"crossings\":0,\"edges\":4,\"undone\":4,\"vertices\":4}
{\"crossed\":[],\"edge\":4,\"end\":0,\"price\":0,\"start\":0}
{\"fault\":[70,\"NothingToUndo\",5]}
{\"edge\":5,\"vertex\":4}
{\"crossed\":[],\"edge\":6,\"end\":1,\"price\":0,\"start\":0}
{\"edge\":7,\"vertex\":5}
{\"crossed\":[],\"edge\":8,\"end\":0,\"price\":0,\"start\":1}
{\"deleted\":3}
{\"crossings\":0,\"edges\":8,\"faces\":4,\"segments\":8,\"vertices\":6}
{\"fault\":[70,\"NothingToUndo\",1]}
{\"crossed\":[],\"edge\":9,\"end\":2,\"price\":0,\"start\":1}
{\"crossings\":[],\"edges\":[0,1,2,4,5,6,7,8,9]}
{\"a\":0,\"b\":3,\"crossings\":[],\"id\":8,\"kind\":0,\"price\":3}
{\"fault\":[70,\"NothingToUndo\",1]}
{\"crossings\":0,\"edges\":1,\"faces\":1,\"segments\":1,\"vertices\":2}
{\"edge\":1,\"vertex\":2}
{\"history\":[{\"call\":[\"grow\",0,0,0],\"caller\":0,\"reply\":{\"edge\":1,\"vertex\":2}}],\"limits\":{\"crossings\":1048576,\"edges\":65536,\"vertices\":65536},\"picture\":{\"crossings\":[],\"edges\":[{\"a\":0,\"b\":1,\"crossings\":[],\"id\":0,\"kind\":0},{\"a\":0,\"b\":2,\"crossings\":[],\"id\":1,\"kind\":0}],\"next_crossing\":0,\"next_edge\":2,\"rotations\":[[0,1],[0],[1]]},\"prices\":[],\"start\":{\"crossings\":[],\"edges\":[{\"a\":0,\"b\":1,\"crossings\":[],\"id\":0,\"kind\":0}],\"next_crossing\":0,\"next_edge\":1,\"rotations\":[[0],[0]]},\"version\":1}
{\"fault\":[52,\"BadShape\",\"$/reopen/history\"]}
{\"crossings\":0,\"edges\":2,\"faces\":1,\"segments\":2,\"vertices\":3}
{\"crossings\":0,\"edges\":1,\"undone\":1,\"vertices\":2}
{\"crossings\":0,\"edges\":1,\"faces\":1,\"segments\":1,\"vertices\":2}
{\"answer\":{\"fault\":[60,\"WrongReply\",0]}}
";

/// Graphs of which pictures are wanted, before a session is open and after: each is answered as the
/// command answers it, and the session's picture stays.
const GRAPHS: &str = "\
{\"planarize\":{\"edges\":[[0,1,0],[1,2,0],[2,0,0]],\"progress\":true,\"threads\":2,\"vertices\":4,\"version\":1}}
\"counts\"
{\"open\":{\"version\":1}}
{\"planarize\":{\"edges\":[[0,1,0],[1,2,0],[2,0,0]],\"progress\":true,\"threads\":2,\"vertices\":4,\"version\":1}}
{\"call\":{\"planarize\":{\"edges\":[[0,1,0],[1,2,0],[2,0,0]],\"progress\":true,\"threads\":2,\"vertices\":4,\"version\":1}},\"id\":7}
\"counts\"
{\"planarize\":{\"edges\":[[0,1,0],[1,1,0]],\"vertices\":2,\"version\":1}}
{\"planarize\":{\"edges\":[[0,1,0],[1,2,0]],\"vertices\":2,\"version\":1}}
{\"planarize\":{\"edges\":[[0,1,77]],\"vertices\":2,\"version\":1}}
{\"planarize\":{\"edges\":[[0,1,0]],\"prices\":[0],\"vertices\":2,\"version\":1}}
{\"planarize\":{\"edges\":[[0,1,0]],\"seconds\":1,\"vertices\":2,\"version\":1}}
{\"planarize\":{\"edges\":[[0,1,0]],\"start\":{\"lonely\":[],\"parts\":[{\"edges\":[0],\"picture\":{\"crossings\":[],\"edges\":[{\"a\":0,\"b\":1,\"crossings\":[],\"id\":0,\"kind\":0}],\"next_crossing\":0,\"next_edge\":1,\"rotations\":[[0],[0]]},\"vertices\":[1,0]}]},\"vertices\":2,\"version\":1}}
{\"planarize\":{\"edges\":[[0,1,0],[1,2,0],[2,0,0]],\"progress\":true,\"threads\":2,\"vertices\":4,\"version\":1},\"id\":7}
\"report\"
";

/// The answers to the graphs.
const GRAPHS_ANSWERS: &str = "\
{\"cost\":0,\"crossings\":0,\"lonely\":[3],\"parts\":[{\"edges\":[0,1,2],\"picture\":{\"crossings\":[],\"edges\":[{\"a\":0,\"b\":1,\"crossings\":[],\"id\":0,\"kind\":0},{\"a\":1,\"b\":2,\"crossings\":[],\"id\":1,\"kind\":0},{\"a\":2,\"b\":0,\"crossings\":[],\"id\":2,\"kind\":0}],\"next_crossing\":0,\"next_edge\":3,\"rotations\":[[0,2],[0,1],[1,2]]},\"vertices\":[0,1,2]}],\"tries\":[0]}
{\"fault\":[72,\"NotOpen\"]}
{\"crossings\":0,\"edges\":1,\"faces\":1,\"segments\":1,\"vertices\":2}
{\"cost\":0,\"crossings\":0,\"lonely\":[3],\"parts\":[{\"edges\":[0,1,2],\"picture\":{\"crossings\":[],\"edges\":[{\"a\":0,\"b\":1,\"crossings\":[],\"id\":0,\"kind\":0},{\"a\":1,\"b\":2,\"crossings\":[],\"id\":1,\"kind\":0},{\"a\":2,\"b\":0,\"crossings\":[],\"id\":2,\"kind\":0}],\"next_crossing\":0,\"next_edge\":3,\"rotations\":[[0,2],[0,1],[1,2]]},\"vertices\":[0,1,2]}],\"tries\":[0]}
{\"answer\":{\"cost\":0,\"crossings\":0,\"lonely\":[3],\"parts\":[{\"edges\":[0,1,2],\"picture\":{\"crossings\":[],\"edges\":[{\"a\":0,\"b\":1,\"crossings\":[],\"id\":0,\"kind\":0},{\"a\":1,\"b\":2,\"crossings\":[],\"id\":1,\"kind\":0},{\"a\":2,\"b\":0,\"crossings\":[],\"id\":2,\"kind\":0}],\"next_crossing\":0,\"next_edge\":3,\"rotations\":[[0,2],[0,1],[1,2]]},\"vertices\":[0,1,2]}],\"tries\":[0]},\"id\":7}
{\"crossings\":0,\"edges\":1,\"faces\":1,\"segments\":1,\"vertices\":2}
{\"fault\":[80,\"Loop\",1]}
{\"fault\":[81,\"NoEnd\",1]}
{\"fault\":[54,\"BadNumber\",\"$/edges/0/2\"]}
{\"fault\":[10,\"BadPrice\",0]}
{\"fault\":[52,\"BadShape\",\"$/seconds\"]}
{\"fault\":[84,\"OtherGraph\"]}
{\"fault\":[52,\"BadShape\",\"$\"]}
{\"history\":[],\"limits\":{\"crossings\":1048576,\"edges\":65536,\"vertices\":65536},\"picture\":{\"crossings\":[],\"edges\":[{\"a\":0,\"b\":1,\"crossings\":[],\"id\":0,\"kind\":0}],\"next_crossing\":0,\"next_edge\":1,\"rotations\":[[0],[0]]},\"prices\":[],\"start\":{\"crossings\":[],\"edges\":[{\"a\":0,\"b\":1,\"crossings\":[],\"id\":0,\"kind\":0}],\"next_crossing\":0,\"next_edge\":1,\"rotations\":[[0],[0]]},\"version\":1}
";

#[test]
fn questions(rt: HostRuntime) {
    check(&rt, TRIANGLE, TRIANGLE_ANSWERS);
    check(&rt, TAKEN_BACK, TAKEN_BACK_ANSWERS);
    check(&rt, CROSSED, CROSSED_ANSWERS);
}

#[test]
fn envelopes_and_openings(rt: HostRuntime) {
    check(&rt, ENVELOPES, ENVELOPES_ANSWERS);
}

#[test]
fn graphs_are_answered_as_by_the_command(rt: HostRuntime) {
    check(&rt, GRAPHS, GRAPHS_ANSWERS);
}
