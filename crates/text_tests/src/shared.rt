use ldar_days::Day;
use std::test::Fail;
use std::{env, process};

/// A path in the folder for temporary files, which only this process uses.
pub(crate) fn path_of(rt: &HostRuntime, name: &str) -> Result<String, Fail> {
    let folder = env::temp_dir(rt)?;
    let number = process::id(rt.process());
    Ok(format!(in rt.alloc(); "{}/{name}.{number}", folder.as_str())?)
}
