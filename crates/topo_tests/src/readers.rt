//! Texts of other layouts than the writer's, which are read all the same.

use std::alloc::Global;
use std::test::Fail;
use topo_script::{picture_text, read_report, read_rows, report};

/// The bipyramid with an edge from apex to apex, as it is written.
const JOINED: &str = concat!(
    r#"{"crossings":[{"crossed":1,"id":0,"newcomer":9,"sign":"rtl"}],"edges":[{"a":0,"b":1,"#,
    r#""crossings":[],"id":0,"kind":1},{"a":1,"b":2,"crossings":[0],"id":1,"kind":2},"#,
    r#"{"a":2,"b":0,"crossings":[],"id":2,"kind":3},{"a":3,"b":0,"crossings":[],"id":3,"#,
    r#""kind":0},{"a":3,"b":1,"crossings":[],"id":4,"kind":0},{"a":3,"b":2,"crossings":[],"#,
    r#""id":5,"kind":0},{"a":4,"b":0,"crossings":[],"id":6,"kind":0},{"a":4,"b":1,"#,
    r#""crossings":[],"id":7,"kind":0},{"a":4,"b":2,"crossings":[],"id":8,"kind":0},{"a":3,"#,
    r#""b":4,"crossings":[0],"id":9,"kind":0}],"next_crossing":1,"next_edge":10,"#,
    r#""rotations":[[0,3,2,6],[0,7,1,4],[1,8,2,5],[3,4,9,5],[6,8,9,7]]}"#,
);

/// `JOINED` with the keys in other orders, blanks between its tokens, an escape in a key and a key
/// that comes twice.
const OTHERWISE: &str = concat!(
    r#" { "next_edge":10, "next_crossing":7, "crossings":[{"id":0,"crossed":1,"sign":"rtl","#,
    r#""newcomer":9}],"#,
    "\n",
    r#"    "rotations" : [ [0,3,2,6],[0,7,1,4],[1,8,2,5],[3,4,9,5],[6,8,9,7] ],"#,
    "\n",
    r#"    "edges":[{"id":0,"a":0,"b":1,"kind":1,"crossings":[]},{"a":1,"b":2,"#,
    r#""crossings":[0],"id":1,"kind":2},{"a":2,"b":0,"crossings":[],"id":2,"kind":3},"#,
    r#"{"a":3,"b":0,"crossings":[],"id":3,"kind":0},{"a":3,"b":1,"crossings":[],"id":4,"#,
    r#""kind":0},{"a":3,"b":2,"crossings":[],"id":5,"kind":0},{"a":4,"b":0,"crossings":[],"#,
    r#""id":6,"kind":0},{"a":4,"b":1,"crossings":[],"id":7,"kind":0},{"a":4,"b":2,"#,
    r#""crossings":[],"id":8,"kind":0},{"a":3,"b":4,"crossings":[0],"\u0069d":9,"kind":0}],"#,
    "\n",
    r#"    "next_crossing":1 } "#,
);

/// `JOINED` with each blank that may stand between tokens.
const SPACED: &str = concat!(
    "\n{ \"crossings\" :[ {\"crossed\":\t1,\"id\":0 , \"newcomer\":9,",
    "\r\n\"sign\":\"rtl\" } ] ,\"edges\":[{\"a\":0,\"b\":1,\"crossings\":[ ],\"id\":0,",
    "\"kind\":1},{\"a\":1,\"b\":2,\"crossings\":[0 ],\"id\":1,\"kind\":2\n},{\"a\":2,",
    "\"b\":0,\"crossings\":[],\"id\":2,\"kind\":3},{\"a\":3,\"b\":0,\"crossings\":[],",
    "\"id\":3,\"kind\":0},{\"a\":3,\"b\":1,\"crossings\":[],\"id\":4,\"kind\":0},",
    "{\"a\":3,\"b\":2,\"crossings\":[],\"id\":5,\"kind\":0},{\"a\":4,\"b\":0,",
    "\"crossings\":[],\"id\":6,\"kind\":0},{\"a\":4,\"b\":1,\"crossings\":[],\"id\":7,",
    "\"kind\":0},{\"a\":4,\"b\":2,\"crossings\":[],\"id\":8,\"kind\":0},{\"a\":3,\"b\":4,",
    "\"crossings\":[0],\"id\":9,\"kind\":0}],\"next_crossing\":1,\"next_edge\":10,",
    "\"rotations\":[[0,3,2,6],[0,7,1,4],[1,8,2,5],[3,4,9,5],[6,8,9,7]]}\t\n",
);

/// A report with a number of its own for each field.
const EACH_FIELD: &str = concat!(
    r#"{"history":[{"call":["grow",20,21,22],"caller":23,"reply":{"edge":24,"vertex":25}},"#,
    r#"{"call":["insert",26,27,28],"caller":29,"reply":{"crossed":[[30,31,"back"],[32,33,"#,
    r#""forward"]],"edge":34,"end":35,"price":36,"start":37}},{"call":["delete",38],"#,
    r#""caller":39,"reply":{"refused":[6,"Cut",40]}},{"call":["delete",41],"caller":42,"#,
    r#""reply":{"deleted":43}},{"call":["delete",44],"caller":45,"reply":{"refused":[4,"#,
    r#""NoEdge"]}}],"limits":{"crossings":46,"edges":47,"vertices":48},"#,
    r#""picture":{"crossings":[{"crossed":49,"id":50,"newcomer":51,"sign":"rtl"}],"#,
    r#""edges":[{"a":52,"b":53,"crossings":[54],"id":55,"kind":56}],"next_crossing":57,"#,
    r#""next_edge":58,"rotations":[[59],[60,61]]},"prices":[62,null,63],"#,
    r#""start":{"crossings":[],"edges":[],"next_crossing":64,"next_edge":65,"#,
    r#""rotations":[]},"version":2}"#,
);

/// The report of `EACH_FIELD` with the keys in other orders, escapes in keys and words, and a price
/// more.
const EACH_OTHERWISE: &str = concat!(
    r#"{"version":2,"start":{"rotations":[],"edges":[],"next_crossing":64,"next_edge":65,"#,
    r#""crossings":[]},"history":[{"caller":23,"call":["\u0067row",20,21,22],"#,
    r#""reply":{"vertex":25,"edge":24}},{"call":["insert",26,27,28],"caller":29,"#,
    r#""reply":{"start":37,"crossed":[[30,31,"back"],[32,33,"forwar\u0064"]],"edge":34,"#,
    r#""price":36,"end":35}},{"reply":{"refused":[6,"C\u0075t",40]},"call":["delete",38],"#,
    r#""caller":39},{"call":["delete",41],"caller":42,"reply":{"deleted":43}},"#,
    r#"{"call":["delete",44],"caller":45,"reply":{"refused":[4,"N\u006fEdge"]}}],"#,
    r#""limits":{"vertices":48,"crossings":46,"edges":47},"prices":[62,null,63,1],"#,
    r#""picture":{"crossings":[{"si\u0067n":"r\u0074l","crossed":49,"id":50,"newcomer":51}],"#,
    r#""edges":[{"kind":56,"a":52,"b":53,"crossings":[54],"id":55}],"next_crossing":57,"#,
    r#""next_edge":58,"rotations":[[59],[60,61]]}}"#,
);

/// The text of the picture that a text is.
fn rewritten(alloc: Global, text: &str) -> Result<String, Fail> {
    let rows = read_rows(alloc, text.as_bytes())?;
    let text = picture_text(alloc, &rows);
    drop(rows);
    Ok(text?)
}

/// The text of the report that a text is.
fn report_rewritten(alloc: Global, text: &str) -> Result<String, Fail> {
    let made = read_report(alloc, text.as_bytes())?;
    let text = report(alloc, &made);
    drop(made);
    Ok(text?)
}

/// Texts, what is written of them, and whether they are reports.
const TEXTS: &[(&str, &str, bool)] = &[
    (JOINED, JOINED, false),
    (OTHERWISE, JOINED, false),
    (SPACED, JOINED, false),
    (EACH_FIELD, EACH_FIELD, true),
    (EACH_OTHERWISE, EACH_FIELD, true),
];

#[test]
fn pictures_and_reports_of_other_layouts(rt: HostRuntime) -> Result<(), Fail> {
    for (text, wanted, is_report) in TEXTS {
        let read = if *is_report {
            report_rewritten(rt.alloc(), *text)?
        } else {
            rewritten(rt.alloc(), *text)?
        };
        assert!(rt; read.as_str() == *wanted, "{text}: {read}");
    }
    Ok(())
}
