//! Calls of a picture that read it, and the deletion of an edge that another one crosses.

use crate::marks::{Console, begin, number, says};
use anyhow::Result;
use std::io;
use topo_picture::Picture;
use topo_test_support::pictures::{JOINED, picture_of};

/// The edge that is crossed.
const EDGE: u32 = 9;

/// Calls that read a picture.
fn read<R: Print>(rt: &R, picture: &Picture) -> io::Result<()> {
    begin(rt, "Picture::counts and limits")?;
    let counts = picture.counts();
    let limits = picture.limits();
    says(rt, counts.vertices < limits.vertices)?;
    begin(rt, "Picture::admit")?;
    let admitted = picture.admit(0, 1, 0);
    says(rt, admitted.is_ok())?;
    begin(rt, "Picture::admit, refused")?;
    let refused = picture.admit(0, 0, 0);
    says(rt, refused.is_ok())?;
    begin(rt, "Picture::admit_growth")?;
    let growth = picture.admit_growth(0, 0, 0);
    says(rt, growth.is_ok())?;
    begin(rt, "Picture::admit_deletion")?;
    let deletion = picture.admit_deletion(EDGE);
    says(rt, deletion.is_ok())
}

/// An edge is taken out, and then is not there.
fn delete<R: Print>(rt: &R, picture: &mut Picture) -> io::Result<()> {
    let crossings = picture.counts().crossings;
    number(rt, crossings as u64)?;
    begin(rt, "Picture::delete")?;
    let deleted = picture.delete(EDGE);
    says(rt, deleted.is_ok())?;
    begin(rt, "Picture::delete, refused")?;
    let refused = picture.delete(EDGE);
    says(rt, refused.is_ok())
}

/// Calls of the bipyramid with an edge from apex to apex.
pub(crate) fn use_picture<R: Console>(rt: &R) -> Result<()> {
    let mut picture = picture_of(rt.alloc(), &JOINED)?;
    let told = read(rt, &picture);
    let deleted = delete(rt, &mut picture);
    drop(picture);
    told?;
    Ok(deleted?)
}
