//! Files of the system that other programs change while they are followed, kept or saved to.
use crate::support::compare::same;
use crate::support::text_of;
use osn_folder::{
    Disk, Folder, FollowFault, FollowedFile, KeptFile, KeptFileFault, SaveFault, save_file,
};
use std::path::Path;
use std::process::Abort;
use std::rt::{Env, Files};
use std::test::Fail;
use std::{env, fs, io, process};

/// What the file has at a look, and what it has gained then.
type Look = (&'static str, Result<&'static str, FollowFault>);

/// A line that has not ended waits, and may be cut off. A line that was read may not.
const LOOKS: [Look; 6] = [
    ("one\n", Ok("one\n")),
    ("one\n", Ok("")),
    ("one\ntwo\nthr", Ok("two\n")),
    ("one\ntwo\n", Ok("")),
    ("one\ntwo\n3\n", Ok("3\n")),
    ("one\n", Err(FollowFault::Shorter)),
];

/// Checks what a file has gained at a look.
fn has_gained(
    rt: &impl Abort,
    gained: Result<Vec<u8>, FollowFault>,
    expected: Result<&str, FollowFault>,
) {
    match &gained {
        Ok(gained) => same(rt, Ok(text_of(rt, gained)), expected),
        Err(fault) => same(rt, Err(*fault), expected),
    }
}

/// Checks what a file has gained at each look, and after another program has moved it.
fn is_followed<R: Files<File = fs::File> + AllocGlobal + Abort>(rt: &R, looks: &[Look]) {
    let mut disk = Disk::new(rt);
    let followed = disk.follow(rt.alloc(), "followed.journal");
    let mut file = followed.expect(rt, "memory");
    for (text, expected) in looks {
        fs::write(rt, "followed.journal", *text).expect(rt, text);
        has_gained(rt, file.look(rt.alloc()), *expected);
    }
    fs::rename(rt, "followed.journal", "moved").expect(rt, "it moves");
    has_gained(rt, file.look(rt.alloc()), Err(FollowFault::Replaced));
}

/// Checks that a file which another program has moved is not reported as synced.
fn is_kept<R: Files<File = fs::File> + AllocGlobal + Abort>(rt: &R) {
    let (mut keeper, _) = Disk::new(rt)
        .keep("kept.journal")
        .expect(rt, "nobody keeps it");
    same(rt, keeper.append(b"one\n"), Ok(()));
    same(rt, keeper.sync(), Ok(()));
    fs::rename(rt, "kept.journal", "moved").expect(rt, "it moves");
    same(rt, keeper.append(b"two\n"), Ok(()));
    same(rt, keeper.sync(), Err(KeptFileFault::Replaced));
    drop(keeper);
}

const LETTER: &str = "Honoured Sir";

const SAVED: &str = "{\"journal\":2}\n";

/// Saves a text after another program has made a file at its path, and one that has the name of an
/// unfinished file.
fn saved_late<R: Files<File = fs::File> + AllocGlobal + Abort>(rt: &R) -> Result<(), SaveFault> {
    let mut disk = Disk::new(rt);
    let lock = disk
        .lock_to_save("saved.journal")
        .expect(rt, "nobody saves to it");
    fs::write(rt, "saved.journal", LETTER).expect(rt, LETTER);
    fs::write(rt, "saved.journal.unfinished", LETTER).expect(rt, LETTER);
    save_file(&mut disk, rt.alloc(), lock, "saved.journal", None, SAVED)
}

/// Checks that a text is not saved after that, and what each file contains then.
fn is_left<R: Files<File = fs::File> + AllocGlobal + Abort>(rt: &R, files: &[(&str, &str)]) {
    let saved = saved_late(rt);
    let beside = String::from_str(rt.alloc(), "saved.journal.unfinished-2").expect(rt, "memory");
    same(rt, saved, Err(SaveFault::Changed(beside)));
    for (path, text) in files {
        let actual = fs::read_to_string(rt, *path).expect(rt, path);
        same(rt, (*path, actual.as_str()), (*path, *text));
    }
}

const FILES: [(&str, &str); 3] = [
    ("saved.journal", LETTER),
    ("saved.journal.unfinished", LETTER),
    ("saved.journal.unfinished-2", SAVED),
];

/// Makes an empty folder in place of one that is there, and goes there.
fn begin<R: Files + Env + AllocGlobal>(rt: &R, folder: Path<'_>) -> io::Result<()> {
    if fs::exists(rt, folder)? {
        fs::remove_dir_all(rt, folder)?;
    }
    fs::create_dir(rt, folder)?;
    env::set_current_dir(rt, folder)
}

#[test]
fn other_programs_change_files(rt: HostRuntime) -> Result<(), Fail> {
    let name = format!(in rt.alloc(); "oldstyle_{}", process::id(rt.process()))?;
    let folder = env::temp_dir(&rt)?.join(rt.alloc(), name.as_str())?;
    begin(&rt, folder.as_path())?;
    is_followed(&rt, &LOOKS);
    is_kept(&rt);
    is_left(&rt, &FILES);
    Ok(fs::remove_dir_all(&rt, folder.as_path())?)
}
