//! What a name or a tag stands for.

ghost use Rattle.std.specs.Prelude.{◌≡◌, is_some};
ghost use Rattle.std.specs.Option.{option_copied};
ghost use Rattle.clight_scopes.specs.Scopes.{find_in_block, find_local, find_file, find_tag, is_in_first, is_defined_function};
ghost use Rattle.clight_scopes.specs.SceneOf.{scene_of, block_of, block_named, file_named, tag_named};

use crate::scene::{Block, BlockName, FileName, Scene, TagKind};
use tso_words::Name;

impl Block {
    #[tactic(auto, using(crate::proofs::Found::block_found))]
    fn find(&self, name: &Name) -> Option<BlockName>
        ensures { block_named name.now result ≡ find_in_block name.now (block_of self.now) }
    {
        self.names.get(name).copied()
    }
}

impl Scene {
    /// What a name stands for in the innermost block that has it.
    pub fn find_local(&self, name: &Name) -> Option<BlockName>
        ensures { block_named name.now result ≡ find_local name.now (scene_of self.now).blocks }
    {
        let mut left = self.blocks.len();
        while left > 0 {
            left -= 1;
            if let Some(found) = self.blocks[left].find(name) {
                return Some(found);
            }
        }
        None
    }

    /// Whether the innermost block has the name.
    pub fn is_in_first(&self, name: &Name) -> bool
        ensures { result ≡ is_in_first name.now (scene_of self.now).blocks }
    {
        let mut count = self.blocks.len();
        if count == 0 {
            return false;
        }
        count -= 1;
        self.blocks[count].find(name).is_some()
    }

    /// What a name of the file stands for.
    #[tactic(auto, using(crate::proofs::Found::file_found))]
    pub fn find_file(&self, name: &Name) -> Option<&FileName>
        ensures { file_named name.now (option_copied result) ≡ find_file name.now (scene_of self.now).file }
    {
        self.file.get(name)
    }

    /// What a tag stands for.
    #[tactic(auto, using(crate::proofs::Found::tag_found))]
    pub fn find_tag(&self, name: &Name) -> Option<TagKind>
        ensures { tag_named name.now result ≡ find_tag name.now (scene_of self.now).tags }
    {
        self.tags.get(name).copied()
    }

    /// Whether the file defines a function of this name anywhere.
    pub fn defines(&self, name: &Name) -> bool
        ensures { result ≡ is_defined_function (scene_of self.now) name.now }
    {
        self.defined.contains(name)
    }
}
