use crate::stage::Stage;
use crate::watched::{Failing, Steps};
use std::io::ErrorKind;
use std::rt::Files;
use std::test::Fail;
use sw_host::{Host, NoNotes, make_way};

/// Whether a way is made by these steps, of those that are asked for.
fn is_made_by<R: Files>(
    host: &Host<'_, R, NoNotes>,
    steps: &Steps,
    root: &str,
    folder: &str,
    wanted: (&[u8], u64),
) -> bool {
    steps.begin(Failing::None);
    let made = make_way(host, root, folder);
    made.is_ok() && steps.are(wanted.0) && steps.asked() == wanted.1
}

/// Whether it isn't made exactly where the step of this number fails.
fn fails_with_its_step<R: Files>(
    host: &Host<'_, R, NoNotes>,
    steps: &Steps,
    root: &str,
    folder: &str,
    number: u64,
) -> bool {
    steps.begin(Failing::One(number, ErrorKind::PermissionDenied));
    let made = make_way(host, root, folder);
    made.is_err() == steps.has_failed()
}

// From the last folder up each is looked at; each that is missing is made, and the one above it synced, which takes two steps: it is opened for that. One in
// which nothing stands may not have been synced into the one above it.
#[test]
fn each_folder_on_a_way_is_synced_into_the_one_above_it(rt: HostRuntime) -> Result<(), Fail> {
    let stage = Stage::new(rt, "way")?;
    let folder = stage.path("a/b/c")?;
    let file = stage.path("a/b/c/file")?;
    let other = stage.path("d/e")?;
    let host = Host {
        rt: &stage.host.0,
        notes: &NoNotes,
    };
    let (steps, root) = (stage.steps(), stage.root());
    assert!(rt; is_made_by(&host, steps, root, &folder, (b"msmsms", 12)));
    assert!(rt; is_made_by(&host, steps, root, &folder, (b"s", 3)));
    assert!(rt; stage.writes(&file, ""));
    assert!(rt; is_made_by(&host, steps, root, &folder, (b"", 1)));
    for number in 0..9 {
        assert!(rt; fails_with_its_step(&host, steps, root, &other, number));
    }
    stage.end()
}
