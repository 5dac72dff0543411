//! Files in memory.
use aliasplan::{Source, SourceFault};
use std::alloc::Global;

/// The bytes of a file, and its path.
#[derive(Clone, Copy)]
pub struct File<'a> {
    pub path: &'a [u8],
    pub bytes: &'a [u8],
}

/// Some files. Where several have one path, the first stands there.
#[derive(Drop)]
pub struct Files<'a> {
    pub files: &'a [File<'a>],
}

impl Source for Files<'_> {
    ghost use Rattle.plan_tests.specs.FilesInMemory.{answer_among};

    ghost answer = { λ s. answer_among (λ f. f.path.now) (λ f. f.bytes.now) s.files.now };

    fn fetch(&mut self, alloc: Global, path: &[u8]) -> Result<Vec<u8>, SourceFault> {
        for file in self.files {
            if file.path == path {
                let Ok(bytes) = Vec::from_slice(alloc, file.bytes) else {
                    return Err(SourceFault::Memory);
                };
                return Ok(bytes);
            }
        }
        Err(SourceFault::Absent)
    }
}
