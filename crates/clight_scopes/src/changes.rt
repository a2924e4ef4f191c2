//! What a declaration changes.

ghost use Rattle.std.specs.Prelude.{◌≡◌, ◌++◌, [], ◌∷◌, OnOk, IfOk, None, false};
ghost use Rattle.clight_scopes.specs.Scopes.{find_in_block, find_file, find_tag, is_in_first, with_file_name, with_entity, with_tag, with_tag_kind, opened, closed, with_block, with_block_name, with_local, with_addressed};
ghost use Rattle.clight_scopes.specs.SceneOf.{scene_of, entity_of, tag_kind_of, block_of, block_name_of};

use crate::scene::{Block, BlockName, Entity, FileName, Scene, TagKind};
use indexmap::IndexMap;
use std::alloc::{AllocError, Global};
use tso_words::{Name, NoMemory};

impl Block {
    /// A block without names.
    fn empty(alloc: Global) -> Block
        ensures { block_of result ≡ [] }
    {
        Block {
            names: IndexMap::new(alloc),
        }
    }

    /// One name more.
    #[tactic(auto, using(crate::proofs::Found::block_put))]
    fn with(self, name: Name, known: BlockName) -> Result<Block, NoMemory>
        requires { find_in_block name (block_of self) ≡ None }
        ensures { IfOk result (λ b. block_of b ≡ block_of self ++ block_name_of name known ∷ []) }
    {
        let Block { mut names } = self;
        names.insert(name, known).map_err(AllocError::from)?;
        Ok(Block { names })
    }
}

impl Scene {
    /// A name that the file did not have.
    #[tactic(auto, using(crate::proofs::Found::file_put))]
    pub fn put_file_name(&mut self, name: Name, at: u32, entity: Entity) -> Result<(), NoMemory>
        requires { find_file name (scene_of self.old).file ≡ None }
        ensures { OnOk result (scene_of self.new ≡ with_file_name (scene_of self.old) name at (entity_of entity)) }
    {
        let known = FileName { at, entity };
        self.file.insert(name, known).map_err(AllocError::from)?;
        Ok(())
    }

    /// A name of the file stands for something else from now on.
    pub fn replace_entity(&mut self, name: &Name, entity: Entity)
        ensures { scene_of self.new ≡ with_entity (scene_of self.old) name.now (entity_of entity) }
    {
        if let Some(index) = self.file.get_index_of(name) {
            if let Some(known) = self.file.get_index_mut(index) {
                known.entity = entity;
            }
        }
    }

    /// A tag that the file did not have.
    #[tactic(auto, using(crate::proofs::Found::tag_put))]
    pub fn put_tag(&mut self, name: Name, kind: TagKind) -> Result<(), NoMemory>
        requires { find_tag name (scene_of self.old).tags ≡ None }
        ensures { OnOk result (scene_of self.new ≡ with_tag (scene_of self.old) name (tag_kind_of kind)) }
    {
        self.tags.insert(name, kind).map_err(AllocError::from)?;
        Ok(())
    }

    /// A tag stands for something else from now on.
    pub fn replace_tag(&mut self, name: &Name, kind: TagKind)
        ensures { scene_of self.new ≡ with_tag_kind (scene_of self.old) name.now (tag_kind_of kind) }
    {
        if let Some(index) = self.tags.get_index_of(name) {
            if let Some(known) = self.tags.get_index_mut(index) {
                *known = kind;
            }
        }
    }

    /// A block begins.
    #[tactic(auto, using(crate::proofs::Found::block_pushed))]
    pub fn open(&mut self, alloc: Global) -> Result<(), NoMemory>
        ensures { OnOk result (scene_of self.new ≡ opened (scene_of self.old)) }
    {
        self.blocks
            .push(Block::empty(alloc))
            .map_err(AllocError::from)?;
        Ok(())
    }

    /// The innermost block ends.
    #[tactic(auto, using(crate::proofs::Found::block_dropped, crate::proofs::Found::block_none))]
    pub fn close(&mut self)
        ensures { scene_of self.new ≡ closed (scene_of self.old) }
    {
        let count = self.blocks.len();
        if count > 0 {
            self.blocks.truncate(count - 1);
        }
    }

    #[tactic(auto, using(crate::proofs::Found::block_pushed))]
    fn push_with(&mut self, block: Block, name: Name, known: BlockName) -> Result<(), NoMemory>
        requires { find_in_block name (block_of block) ≡ None }
        ensures { OnOk result (scene_of self.new ≡ with_block (scene_of self.old) (block_of block ++ block_name_of name known ∷ [])) }
    {
        let block = block.with(name, known)?;
        self.blocks.push(block).map_err(AllocError::from)?;
        Ok(())
    }

    /// A name of the innermost block that the block did not have.
    #[tactic(auto, using(crate::proofs::Found::block_taken, crate::proofs::Found::block_none))]
    pub fn put_block_name(
        &mut self,
        alloc: Global,
        name: Name,
        type_number: usize,
        local: Option<usize>,
    ) -> Result<(), NoMemory>
        requires { is_in_first name (scene_of self.old).blocks ≡ false }
        ensures { OnOk result (scene_of self.new ≡ with_block_name (scene_of self.old) name type_number local) }
    {
        let known = BlockName { type_number, local };
        if self.blocks.is_empty() {
            return self.push_with(Block::empty(alloc), name, known);
        }
        let block = self.blocks.pop().unwrap();
        self.push_with(block, name, known)
    }

    /// A local of the function that is defined.
    pub fn put_local(&mut self, type_number: usize) -> Result<(), NoMemory>
        ensures { OnOk result (scene_of self.new ≡ with_local (scene_of self.old) type_number) }
    {
        self.locals.push(type_number).map_err(AllocError::from)?;
        Ok(())
    }

    /// The function takes the address of a local.
    pub fn put_addressed(&mut self, local: Option<usize>) -> Result<(), NoMemory>
        ensures { OnOk result (scene_of self.new ≡ with_addressed local (scene_of self.old)) }
    {
        if let Some(number) = local {
            self.addressed.push(number).map_err(AllocError::from)?;
        }
        Ok(())
    }
}
