//! What the files of a job hold.

use std::marker::Model;
use yaml_text::Tree;

/// The trees of the three files of a job.
#[derive(Drop)]
pub struct Trees {
    /// That of the job file.
    pub jobs: Tree,
    /// That of `config/integralfamilies.yaml`.
    pub families: Tree,
    /// That of `config/kinematics.yaml`.
    pub kinematics: Tree,
}

/// What the files of a job hold: the trees of its three files, and the texts of its list files.
#[derive(Drop)]
pub struct Sources {
    pub(crate) trees: Trees,
    pub(crate) lists: Vec<Vec<u8>>,
}

impl Model for Sources {
    ghost use Rattle.kira_app.specs.Sources.{Sources as SourcesValue, sources_code};

    ghost Value = { SourcesValue };

    ghost coded = { sources_code };

    ghost use Rattle.kira_app.specs.KeptSources.{shown, IsKept};

    ghost view = { shown };

    ghost invariant = { IsKept };
}
