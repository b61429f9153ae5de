// Keys over regions with unique blocks.

ghost use Rattle.dynamic_region.specs.Tagged.{blocks_tagged};
ghost use Rattle.unique_blocks.specs.Blocks.{byte_at, held, tag_of};

use crate::blocks::Blocks;
use crate::regions::Regions;
use region_runtime::{Handle, Refusal};
use unique_blocks::{UniqueBlocks, UniqueRefusal};

impl Regions for UniqueBlocks {
    ghost holdings = { held };

    ghost tag_of = { tag_of };

    ghost byte_at = { byte_at };

    ghost headers = { λ u. u.pool.words };

    ghost ever_used = { λ u. u.pool.ever_used };

    ghost touches = { λ u. u.touched };

    ghost tagged = { blocks_tagged };

    fn region_new(&mut self) -> Option<Handle> {
        UniqueBlocks::region_new(self)
    }

    fn region_alloc(&mut self, handle: Handle, bytes: u32) -> Result<u32, Refusal> {
        UniqueBlocks::region_alloc(self, handle, bytes)
    }

    fn region_free(&mut self, handle: Handle) -> Result<(), Refusal> {
        UniqueBlocks::region_free(self, handle)
    }

    fn tag(&mut self, handle: Handle) -> Option<u32> {
        UniqueBlocks::tag(self, handle)
    }

    fn set_tag(&mut self, handle: Handle, value: u32) -> bool {
        UniqueBlocks::set_tag(self, handle, value)
    }

    fn free_pages(&self) -> u32 {
        UniqueBlocks::free_pages(self)
    }

    fn fresh_pages(&self) -> u32 {
        UniqueBlocks::fresh_pages(self)
    }

    fn touched(&self) -> u32 {
        UniqueBlocks::touched(self)
    }

    fn pages(&self) -> u32 {
        UniqueBlocks::pages(self)
    }

    fn is_live(&self, at: u32) -> bool {
        UniqueBlocks::is_live(self, at)
    }

    fn load8(&self, at: u32) -> Option<u8> {
        UniqueBlocks::load8(self, at)
    }

    fn store8(&mut self, at: u32, byte: u8) -> bool {
        UniqueBlocks::store8(self, at, byte)
    }
}

impl Blocks for UniqueBlocks {
    fn unique_alloc(&mut self, bytes: u32) -> Result<u32, UniqueRefusal> {
        UniqueBlocks::unique_alloc(self, bytes)
    }

    fn unique_free(&mut self, at: u32) -> Result<(), UniqueRefusal> {
        UniqueBlocks::unique_free(self, at)
    }
}
