//! The paths of the attributes files outside a worktree.

ghost use Rattle.std.specs.Prelude.{◌≡◌, IfOk, List, option_map, string_bytes};
ghost use Rattle.gix_attributes.specs.Sources.{Asked, AsksInOrder, IsAsked, below, is_unset_or_empty, joined, location};

use std::alloc::{AllocError, Global};

/// An attributes file outside the worktree (gitattributes page), in ascending precedence: if files are passed
/// to [`crate::Search::new_globals`] in this order, the later one wins.
#[derive(Clone, Copy, PartialEq, Eq, PartialOrd, Ord, Hash, Debug)]
pub enum Source {
    /// The file of git's installation, `gitattributes` in its directory.
    GitInstallation,
    /// The file of the system, `etc/gitattributes` below its prefix (gitattributes page:
    /// `$(prefix)/etc/gitattributes`).
    System,
    /// The file of the user, `git/attributes` in `$XDG_CONFIG_HOME` or in `$HOME/.config`.
    Git,
    /// The file of the repository, `info/attributes` in its git directory.
    Local,
}

/// The directories in which git and the system's configuration are installed, as far as they are known.
#[derive(Debug, Drop)]
pub struct Prefixes {
    /// The directory of the files that git's installation brings.
    pub installation: Option<String>,
    /// The directory that has the system's `etc`.
    pub system: Option<String>,
}

impl Source {
    /// The path of the source's file, or `None` if it has none: its directory is not known, or the variable
    /// `GIT_ATTR_NOSYSTEM` is set. `env_var` returns the value of an environment variable, and is called only
    /// for those that matter. [`Source::Local`] is relative to the git directory of the repository.
    ///
    /// # Errors
    ///
    /// If memory runs out.
    pub fn storage_location<F: FnMut(&str) -> Option<String> + Drop>(
        self,
        alloc: Global,
        prefixes: &Prefixes,
        mut env_var: F,
    ) -> Result<Option<String>, AllocError>
        requires { F.IsAlwaysCallable env_var }
        ensures { (asked : List Asked) × AsksInOrder F.FnMut env_var asked × IsAsked self asked
            × IfOk result (λ path.
            option_map string_bytes path ≡ location self prefixes.now asked) }
    {
        match self {
            Source::GitInstallation => join_known(alloc, &prefixes.installation, "gitattributes"),
            Source::System => {
                if env_var("GIT_ATTR_NOSYSTEM").is_some() {
                    return Ok(None);
                }
                join_known(alloc, &prefixes.system, "etc/gitattributes")
            }
            Source::Git => {
                let config = env_var("XDG_CONFIG_HOME");
                if !is_unset_or_empty(&config) {
                    return join_known(alloc, &config, "git/attributes");
                }
                let home = env_var("HOME");
                join_known(alloc, &home, ".config/git/attributes")
            }
            Source::Local => Ok(Some(String::from_str(alloc, "info/attributes")?)),
        }
    }
}

fn is_unset_or_empty(value: &Option<String>) -> bool
    ensures { result ≡ is_unset_or_empty (option_map string_bytes value.now) }
{
    match value {
        Some(text) => text.is_empty(),
        None => true,
    }
}

// The path below the directory, if the directory is known.
fn join_known(
    alloc: Global,
    directory: &Option<String>,
    rest: &str,
) -> Result<Option<String>, AllocError>
    ensures { IfOk result (λ path.
        option_map string_bytes path ≡ below (option_map string_bytes directory.now) rest.now) }
{
    match directory {
        Some(directory) => Ok(Some(join(alloc, directory, rest)?)),
        None => Ok(None),
    }
}

// The directory without the slashes at its end, then a slash and the rest.
fn join(alloc: Global, directory: &str, rest: &str) -> Result<String, AllocError>
    ensures { IfOk result (λ path. string_bytes path ≡ joined directory.now rest.now) }
{
    let mut path = String::from_str(alloc, directory.trim_end_matches('/'))?;
    path.push('/')?;
    path.push_str(rest)?;
    Ok(path)
}
