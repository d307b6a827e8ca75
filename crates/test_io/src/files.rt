//! Acts on real files.
use crate::shelves::act;
use anyhow::Result;
use std::fs::{self, Permissions};
use std::io;
use std::mem::drop;
use std::os::unix::fs::{PermissionsExt, symlink};
use std::rt::Files;
use tc_io::files::FileShelf;
use test_table::given::Given;

/// The files of the system.
pub(crate) fn real<R: Files + AllocGlobal + Clone + Drop>(
    rt: &R,
    acts: &str,
    told: &mut String,
) -> Result<()> {
    let mut shelf = FileShelf::new(rt.clone()?);
    let done = act_all(rt, &mut shelf, acts, told);
    let taken = shelf.taken();
    drop(shelf);
    done?;
    write!(told, "{taken} taken")?;
    Ok(())
}

fn act_all<R: Files + AllocGlobal + Clone + Drop>(
    rt: &R,
    shelf: &mut FileShelf<R>,
    acts: &str,
    told: &mut String,
) -> Result<()> {
    for text in acts.split("; ") {
        let mut given = Given::new(text);
        let word = given.word();
        if !is_change(rt, word, &mut given)? && !is_look(rt, word, &mut given, told)? {
            act(shelf, word, &mut given, told)?;
        }
        given.end()?;
    }
    Ok(())
}

/// Whether an act changes files: then it is done.
fn is_change<R: Files + AllocGlobal>(rt: &R, word: &str, given: &mut Given) -> io::Result<bool> {
    match word {
        "make-dir" => fs::create_dir(rt, given.word()),
        "remove-dir" => fs::remove_dir(rt, given.word()),
        "write" => fs::write(rt, given.word(), given.rest()),
        "remove" => fs::remove_file(rt, given.word()),
        "link" => symlink(rt, given.word(), given.word()),
        "hard-link" => fs::hard_link(rt, given.word(), given.word()),
        "chmod" => fs::set_permissions(rt, given.word(), Permissions::from_mode(given.number())),
        _ => return Ok(false),
    }?;
    Ok(true)
}

/// Whether an act looks at files: then what it sees is added.
fn is_look<R: Files + AllocGlobal + Clone + Drop>(
    rt: &R,
    word: &str,
    given: &mut Given,
    told: &mut String,
) -> io::Result<bool> {
    match word {
        "mode" => push_mode(rt, given.word(), told)?,
        "names" => push_names(rt, given.word(), told)?,
        _ => return Ok(false),
    }
    Ok(true)
}

/// Adds the mode of a file, and whether the name is a link.
fn push_mode<R: Files>(rt: &R, name: &str, told: &mut String) -> io::Result<()> {
    let mode = fs::metadata(rt, name)?.permissions().mode() & 0o777;
    let is_link = fs::symlink_metadata(rt, name)?.is_symlink();
    Ok(write!(told, "{mode} {is_link};")?)
}

/// Adds the names in a folder, in order.
fn push_names<R: Files + AllocGlobal + Clone + Drop>(
    rt: &R,
    folder: &str,
    told: &mut String,
) -> io::Result<()> {
    let mut names = Vec::new(rt.alloc());
    let taken = take_names(rt, folder, &mut names);
    for name in &names {
        write!(told, "{name} ")?;
    }
    drop(names);
    told.push(';')?;
    taken
}

fn take_names<R: Files + AllocGlobal + Clone + Drop>(
    rt: &R,
    folder: &str,
    names: &mut Vec<String>,
) -> io::Result<()> {
    for entry in fs::read_dir(rt, folder)? {
        let entry = entry?;
        let name = String::from_str(rt.alloc(), entry.file_name());
        drop(entry);
        names.push(name?)?;
    }
    Ok(names.sort()?)
}
