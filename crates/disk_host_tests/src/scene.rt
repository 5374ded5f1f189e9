// A folder that this process alone has, in which the steps of a scene are made.
use crate::answer::{Answer, done, is_done};
use crate::words::{first_of, number_of, text_of};
use std::fs::Permissions;
use std::os::unix::fs::{MetadataExt, PermissionsExt, symlink};
use std::{env, fs, io, process};

#[derive(Drop)]
pub struct Scene {
    rt: HostRuntime,
    top: String,
}

#[derive(Clone, Copy)]
enum Act {
    Folder,
    Put,
    Fill,
    Link,
    Move,
    Remove,
    Holds,
    Twin,
    Mode,
    Chmod,
}

impl Scene {
    pub fn new(rt: HostRuntime, name: &str) -> io::Result<Scene> {
        let process = process::id(rt.process());
        let temporary = env::temp_dir(&rt)?;
        let top = format!(in rt.alloc(); "{}/{name}{process}", temporary.as_str())?;
        fs::create_dir(&rt, top.as_str())?;
        env::set_current_dir(&rt, top.as_str())?;
        Ok(Scene { rt, top })
    }

    pub fn leave(self) -> io::Result<()> {
        fs::remove_dir_all(&self.rt, self.top.as_str())
    }

    /// Does something in the folder itself, as another program would.
    pub fn play(&self, step: &str) -> Option<Answer> {
        let (verb, rest) = first_of(step);
        let act = act_of(verb)?;
        let (name, rest) = first_of(rest);
        let name = text_of(self.rt.alloc(), name)?;
        self.act(act, name.as_str(), rest)
    }

    fn act(&self, act: Act, name: &str, rest: &str) -> Option<Answer> {
        let rt = &self.rt;
        match act {
            Act::Folder => Some(done(fs::create_dir_all(rt, name))),
            Act::Remove => Some(done(fs::remove_dir_all(rt, name))),
            Act::Link => Some(done(symlink(rt, name, rest))),
            Act::Move => Some(done(fs::rename(rt, name, rest))),
            Act::Twin => Some(done(fs::hard_link(rt, name, rest))),
            Act::Mode => self.has_mode(name, rest),
            Act::Chmod => self.set_mode(name, rest),
            Act::Put => self.put(name, rest),
            Act::Fill => self.fill(name, rest),
            Act::Holds => self.holds(name, rest),
        }
    }

    fn put(&self, name: &str, word: &str) -> Option<Answer> {
        let text = text_of(self.rt.alloc(), word)?;
        Some(done(fs::write(&self.rt, name, text.as_str())))
    }

    fn fill(&self, name: &str, size: &str) -> Option<Answer> {
        let (size, _) = number_of(size)?;
        let bytes = vec![in self.rt.alloc(); b'#'; usize::try_from(size).ok()?].ok()?;
        Some(done(fs::write(&self.rt, name, bytes)))
    }

    // Who may read, write and run it, in octal.
    fn has_mode(&self, name: &str, mode: &str) -> Option<Answer> {
        let mode = u32::from_str_radix(mode, 8).ok()?;
        match fs::metadata(&self.rt, name) {
            Ok(seen) => Some(is_done(seen.mode() & 0o777 == mode)),
            Err(_) => Some(Answer::Missing),
        }
    }

    fn set_mode(&self, name: &str, mode: &str) -> Option<Answer> {
        let mode = u32::from_str_radix(mode, 8).ok()?;
        Some(done(fs::set_permissions(&self.rt, name, Permissions::from_mode(mode))))
    }

    fn holds(&self, name: &str, word: &str) -> Option<Answer> {
        let text = text_of(self.rt.alloc(), word)?;
        match fs::read_to_string(&self.rt, name) {
            Ok(bytes) => Some(is_done(bytes.as_str() == text.as_str())),
            Err(_) => Some(Answer::Missing),
        }
    }
}

fn act_of(verb: &str) -> Option<Act> {
    match verb {
        "folder" => Some(Act::Folder),
        "put" => Some(Act::Put),
        "fill" => Some(Act::Fill),
        "link" => Some(Act::Link),
        "move" => Some(Act::Move),
        "remove" => Some(Act::Remove),
        "holds" => Some(Act::Holds),
        "twin" => Some(Act::Twin),
        "mode" => Some(Act::Mode),
        "chmod" => Some(Act::Chmod),
        _ => None,
    }
}
