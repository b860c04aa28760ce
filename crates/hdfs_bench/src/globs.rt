// A glob of many stars, matched against a long text.
use crate::fault::Fault;
use hdfs_globs::GlobPattern;
use std::alloc::Global;

/// So many times this text, and behind them that.
fn repeated(alloc: Global, text: &str, times: usize, last: &str) -> Result<String, Fault> {
    let mut all = String::new(alloc);
    for _ in 0..times {
        all.push_str(text)?;
    }
    all.push_str(last)?;
    Ok(all)
}

/// Whether `a*a*..b`, with so many stars, matches so many times `a`: 0, since it doesn't.
pub(crate) fn match_stars(alloc: Global, stars: usize, length: usize) -> Result<u64, Fault> {
    let pattern = repeated(alloc, "a*", stars, "b")?;
    let text = repeated(alloc, "a", length, "")?;
    let glob = GlobPattern::new(alloc, pattern.as_str())?;
    Ok(u64::from(glob.matches(alloc, text.as_str())?))
}
