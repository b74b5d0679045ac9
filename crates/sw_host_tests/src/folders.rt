use std::test::Fail;
use std::{env, fs, process};

/// The path of a folder of this process and test, of which nothing is left from earlier.
pub(crate) fn fresh_folder(rt: &HostRuntime, test: &str) -> Result<String, Fail> {
    let above = env::temp_dir(rt)?;
    let id = process::id(rt.process());
    let path = format!(in rt.alloc(); "{}/sw-store-tests-{id}-{test}", above.display())?;
    let _ = fs::remove_dir_all(rt, path.as_str());
    Ok(path)
}

/// Ends the folder, where a test made it.
pub(crate) fn end_folder(rt: &HostRuntime, path: &str) -> Result<(), Fail> {
    fs::remove_dir_all(rt, path)?;
    Ok(())
}

/// Whether a folder has no entry.
pub(crate) fn is_empty(rt: &HostRuntime, path: &str) -> bool {
    match fs::read_dir(rt, path) {
        Ok(entries) => entries.count() == 0,
        Err(_) => false,
    }
}
