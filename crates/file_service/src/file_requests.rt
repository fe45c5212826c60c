//! What requests do to files.
ghost use Rattle.std.specs.Prelude.{◌≡◌, ◌<◌, ◌≤◌, ◌+◌, length};
ghost use Rattle.own_model.specs.FileService as model;
ghost use Rattle.own_model.specs.FileText.FileRequest.{Create, Write, Clear, Drop};
ghost use Rattle.session_proto.specs.FileReply.{model_error};
ghost use Rattle.session_nodes.specs.NodeList.{Finds};
ghost use Rattle.session_nodes.specs.Source.{bytes_from, HasSource};
ghost use Rattle.session_nodes.specs.SessionHeaps.{stock_of, AreSoundHeaps, KeepsHeaps};
ghost use Rattle.file_service.specs.Session.{HasFiles, Serves, done_reply, counted_reply, served_in};

use crate::session::FileSession;
use session_nodes::{FoundNode, Memory, RegionMap, WriteSource};
use session_proto::FileError;
use text_codec::is_name;
use trade_base::{FILE_NODE, Refusal};

impl FileSession {
    /// Creates an empty file with this name.
    ///
    /// Refuses with `BadName` if the name is not valid, then `Exists` if a file has it. Then refuses as the heap refuses a
    /// block for the file's node.
    pub(crate) fn create(
        &mut self,
        memory: &mut Memory,
        map: &mut RegionMap,
        name: &[u8],
    ) -> Result<(), FileError>
        requires furnished { AreSoundHeaps self.old.nodes.heaps memory.old map.old }
        requires files { HasFiles self.old (stock_of self.old.nodes.heaps memory.old map.old) }
        ensures serves { Serves
            (served_in (Create name.now) self.old
            (stock_of self.old.nodes.heaps memory.old map.old)) (done_reply result)
            self.old self.new (stock_of self.new.nodes.heaps memory.new map.new) }
        ensures keeps { KeepsHeaps self.old.nodes.heaps self.new.nodes.heaps
            memory.old memory.new map.old map.new }
    {
        if !is_name(name) {
            return Err(FileError::BadName);
        }
        if self.find(memory, map, name).is_some() {
            return Err(FileError::Exists);
        }
        let _node = self
            .nodes
            .create(memory, map, name, FILE_NODE)
            .map_err(error_of)?;
        Ok(())
    }

    /// Overwrites the bytes of a file from an offset on and returns the number of bytes written. If the file gets longer,
    /// its bytes are a new content, and the old content is freed afterwards.
    ///
    /// Refuses with `NotFound` if there is no such file, then `Gap` if the offset is above its size. Then refuses as the
    /// account does not cover the new content.
    pub(crate) fn write(
        &mut self,
        memory: &mut Memory,
        map: &mut RegionMap,
        name: &[u8],
        offset: u64,
        bytes: &[u8],
    ) -> Result<u64, FileError>
        requires furnished { AreSoundHeaps self.old.nodes.heaps memory.old map.old }
        requires files { HasFiles self.old (stock_of self.old.nodes.heaps memory.old map.old) }
        ensures serves { Serves
            (served_in (Write name.now offset bytes.now) self.old
            (stock_of self.old.nodes.heaps memory.old map.old)) (counted_reply result)
            self.old self.new (stock_of self.new.nodes.heaps memory.new map.new) }
        ensures keeps { KeepsHeaps self.old.nodes.heaps self.new.nodes.heaps
            memory.old memory.new map.old map.new }
    {
        let found = self.find(memory, map, name).ok_or(FileError::NotFound)?;
        if offset > found.node.size {
            return Err(FileError::Gap);
        }
        self.overwrite(memory, map, found, offset, WriteSource::Bytes(bytes))
    }

    /// Overwrites a file that is found, from an offset of at most its size on, with the bytes of a source. Refuses if the
    /// account does not cover the new content.
    pub(crate) fn overwrite(
        &mut self,
        memory: &mut Memory,
        map: &mut RegionMap,
        found: FoundNode,
        offset: u64,
        source: WriteSource<'_>,
    ) -> Result<u64, FileError>
        requires furnished { AreSoundHeaps self.old.nodes.heaps memory.old map.old }
        requires files { HasFiles self.old (stock_of self.old.nodes.heaps memory.old map.old) }
        requires found { Finds self.old.nodes
            (stock_of self.old.nodes.heaps memory.old map.old) found.node.name.items found }
        requires low { offset ≤ found.node.size }
        requires source { HasSource source self.old.nodes.heaps.contents memory.old map.old }
        ensures serves { Serves
            (served_in
            (Write found.node.name.items offset (bytes_from source.entry memory.old)) self.old
            (stock_of self.old.nodes.heaps memory.old map.old)) (counted_reply result)
            self.old self.new (stock_of self.new.nodes.heaps memory.new map.new) }
        ensures keeps { KeepsHeaps self.old.nodes.heaps self.new.nodes.heaps
            memory.old memory.new map.old map.new }
    {
        let count = source.count();
        if count > found.node.size - offset {
            return self.lengthen(memory, map, found, offset, source);
        }
        if count > 0 {
            let content = found.node.content;
            self.nodes
                .heaps
                .put_content(memory, map, content, offset, source);
        }
        Ok(count)
    }

    /// Removes all bytes of a file. Refuses with `NotFound` if no file has the name.
    pub(crate) fn clear(
        &mut self,
        memory: &mut Memory,
        map: &mut RegionMap,
        name: &[u8],
    ) -> Result<(), FileError>
        requires furnished { AreSoundHeaps self.old.nodes.heaps memory.old map.old }
        requires files { HasFiles self.old (stock_of self.old.nodes.heaps memory.old map.old) }
        ensures serves { Serves
            (served_in (Clear name.now) self.old
            (stock_of self.old.nodes.heaps memory.old map.old)) (done_reply result)
            self.old self.new (stock_of self.new.nodes.heaps memory.new map.new) }
        ensures keeps { KeepsHeaps self.old.nodes.heaps self.new.nodes.heaps
            memory.old memory.new map.old map.new }
    {
        let found = self.find(memory, map, name).ok_or(FileError::NotFound)?;
        self.nodes.replace(memory, map, found, 0, 0);
        Ok(())
    }

    /// Removes a file with its content. Refuses with `NotFound` if no file has the name.
    pub(crate) fn remove(
        &mut self,
        memory: &mut Memory,
        map: &mut RegionMap,
        name: &[u8],
    ) -> Result<(), FileError>
        requires furnished { AreSoundHeaps self.old.nodes.heaps memory.old map.old }
        requires files { HasFiles self.old (stock_of self.old.nodes.heaps memory.old map.old) }
        ensures serves { Serves
            (served_in (Drop name.now) self.old (stock_of self.old.nodes.heaps memory.old map.old))
            (done_reply result)
            self.old self.new (stock_of self.new.nodes.heaps memory.new map.new) }
        ensures keeps { KeepsHeaps self.old.nodes.heaps self.new.nodes.heaps
            memory.old memory.new map.old map.new }
    {
        let found = self.find(memory, map, name).ok_or(FileError::NotFound)?;
        self.nodes.remove(memory, map, found);
        Ok(())
    }

    // Writes a file's bytes up to an offset, and a source's bytes after them, as a new content.
    fn lengthen(
        &mut self,
        memory: &mut Memory,
        map: &mut RegionMap,
        found: FoundNode,
        offset: u64,
        source: WriteSource<'_>,
    ) -> Result<u64, FileError>
        requires furnished { AreSoundHeaps self.old.nodes.heaps memory.old map.old }
        requires files { HasFiles self.old (stock_of self.old.nodes.heaps memory.old map.old) }
        requires found { Finds self.old.nodes
            (stock_of self.old.nodes.heaps memory.old map.old) found.node.name.items found }
        requires low { offset ≤ found.node.size }
        requires longer { found.node.size < offset + length (bytes_from source memory.old) }
        requires source { HasSource source self.old.nodes.heaps.contents memory.old map.old }
        ensures serves { Serves
            (served_in
            (Write found.node.name.items offset (bytes_from source.entry memory.old)) self.old
            (stock_of self.old.nodes.heaps memory.old map.old))
            (counted_reply result) self.old self.new
            (stock_of self.new.nodes.heaps memory.new map.new) }
        ensures keeps { KeepsHeaps self.old.nodes.heaps self.new.nodes.heaps
            memory.old memory.new map.old map.new }
    {
        let count = source.count();
        let size = self
            .nodes
            .heaps
            .size_within(memory, offset, count)
            .ok_or(FileError::OutOfRam)?;
        let content = self
            .nodes
            .heaps
            .take_content(memory, map, size)
            .map_err(error_of)?;
        let old = found.node.content;
        self.nodes
            .heaps
            .copy_content(memory, map, old, content, offset);
        self.nodes
            .heaps
            .put_content(memory, map, content, offset, source);
        self.nodes.replace(memory, map, found, content, size);
        Ok(count)
    }
}

/// Returns the error of a reply for a refusal of a heap.
fn error_of(refusal: Refusal) -> FileError
    ensures { model_error result ≡ model.error_of refusal }
{
    session_nodes::error_of(refusal)
}
