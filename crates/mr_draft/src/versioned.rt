//! A file under edit whose version is known from its type, as a change of its pages wants it.

ghost use Rattle.std.specs.Prelude.{◌≡◌};
ghost use Rattle.std.proofs.Props.{props};
ghost use Rattle.mr_tree.specs.Digest.{by};
ghost use Rattle.mr_record.specs.declared.version.Version as versions;

use crate::sheets::Sheets;
use mr_edit::{EditErr, PageFile};
use mr_outside::Shelf;
use mr_record::Version;
use mr_tree::{Child, Hashes, NodeView};
use std::marker::PhantomData;

/// A version as a type.
pub(crate) trait StaticVersion {
    ghost version: { versions.Version };
}

/// Version 1.
pub(crate) struct First {}

/// Version 2.
pub(crate) struct Second {}

impl StaticVersion for First {
    ghost use Rattle.mr_record.specs.declared.version.Version.TheVariants.{One};

    ghost version = { One };
}

impl StaticVersion for Second {
    ghost use Rattle.mr_record.specs.declared.version.Version.TheVariants.{Two};

    ghost version = { Two };
}

/// A file of a draft, in this version.
#[derive(Drop)]
pub(crate) struct Versioned<'a, S: Shelf, H: Hashes, V: StaticVersion> {
    pub(crate) sheets: &'a mut Sheets<S, H>,
    pub(crate) version: PhantomData<V>,
    ghost is: { sheets.now.file.layout.version ≡ V.version } by { Prim.hlevel props },
}

impl<S: Shelf, H: Hashes, V: StaticVersion> PageFile for Versioned<'_, S, H, V> {
    ghost use Rattle.mr_store.specs.CachedFile.{state_of};
    ghost use Rattle.mr_draft.specs.Sheets.{page_map_of, KeepsLent};
    ghost use Rattle.mr_draft.specs.private.SheetLaws.{lent_self, lent_on};

    ghost scheme = { by V.version H.of };

    ghost told = { λ s. page_map_of s.sheets.now.file };

    ghost faults = { λ s. (state_of s.sheets.now.file).faults };

    ghost reads = { λ s. (state_of s.sheets.now.file).reads };

    ghost kept = { λ s t. KeepsLent s.sheets.ghost_name t.sheets.ghost_name s.sheets.now.file
        t.sheets.now.file };

    fn version(&self) -> Version {
        self.sheets.file.layout.version
    }

    fn entry(&self, view: &NodeView, page: u32) -> Child {
        self.sheets.entry(view, page)
    }

    fn read(&mut self, child: &Child, into: &mut NodeView) -> Result<(), EditErr> {
        self.sheets.read(child, into)
    }

    fn read_free(&mut self, page: u32) -> Result<u32, EditErr> {
        self.sheets.read_free(page)
    }

    fn write(&mut self, child: &Child, view: &NodeView) -> Result<(), EditErr> {
        self.sheets.write(child, view)
    }

    fn write_free(&mut self, page: u32, next: u32) -> Result<(), EditErr> {
        self.sheets.write_free(page, next)
    }

    fn grow(&mut self) -> Result<u32, EditErr> {
        self.sheets.grow()
    }

    ghost kept_self = { λ s. lent_self _ _ };

    ghost kept_on = { λ s t u. lent_on _ _ _ _ _ _ };

    ghost kept_faults = { λ s t k. k.file.faults };
}
