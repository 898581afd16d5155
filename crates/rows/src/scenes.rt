//! What the steps of a scene are taken on.

use crate::engines::Asked;
use crate::searches::Scene;
use list_rows::answer::Answer;
use list_rows::fault::Fault;
use list_rows::keys::Keys;
use list_rows::numbers::Numbering;
use list_rows::scene::take_all;

/// Adds a field with what the steps of a scene report.
pub(crate) fn push_report(about: &str, scene: &str, answer: &mut Answer) -> Result<(), Fault> {
    let alloc = answer.alloc;
    let mut out = String::new(alloc);
    match about {
        "searches" => take_all(&mut *Scene::new(alloc)?, scene, &mut out)?,
        "engines" => take_all(&mut Asked::new(alloc)?, scene, &mut out)?,
        "numbers" => take_all(&mut *Numbering::new(alloc)?, scene, &mut out)?,
        "keys" => take_all(&mut Keys::new(alloc), scene, &mut out)?,
        _ => return Err(Fault::NotARow),
    }
    answer.text(&out)
}
