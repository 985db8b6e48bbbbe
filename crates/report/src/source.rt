// The bytes of a source file, and the lines and columns of offsets in them.
use anyhow::anyhow;
use std::alloc::Global;
use std::fs;

/// An offset in a source, and the line on which it stands.
#[derive(Clone, Copy)]
pub struct Spot {
    /// The index of a byte; the length of the source is an offset too.
    pub offset: usize,
    /// Counted from 1.
    pub line: usize,
    // where that line begins
    start: usize,
}

impl Spot {
    /// The offset of the first byte of a source.
    pub const TOP: Spot = Spot {
        offset: 0,
        line: 1,
        start: 0,
    };

    /// Answers the column of the offset in its line, counted in bytes from 1.
    pub fn column(self) -> usize {
        self.offset.saturating_sub(self.start).saturating_add(1)
    }

    /// Answers the source from the beginning of the line on.
    pub fn rest_of(self, source: &[u8]) -> &[u8] {
        source.get(self.start..).unwrap_or(source)
    }

    /// Answers the spot of an offset that is not before this one. Only the bytes between the two are looked at.
    pub fn onward(self, source: &[u8], offset: usize) -> Spot {
        let mut line = self.line;
        let mut start = self.start;
        // By its bounds: the library's `skip` would go over all bytes before them one by one.
        let between = source
            .get(self.offset..offset.min(source.len()))
            .unwrap_or(&[]);
        for (i, b) in between.iter().enumerate() {
            if *b == b'\n' {
                line = line.saturating_add(1);
                start = self.offset.saturating_add(i).saturating_add(1);
            }
        }
        Spot {
            offset,
            line,
            start,
        }
    }
}

/// Where each line of a source begins. It finds the line of any offset, in whatever order offsets come.
#[derive(Drop)]
pub struct Lines<'a> {
    source: &'a [u8],
    // where each line begins
    starts: Vec<usize>,
}

impl Lines<'_> {
    /// Answers the lines of a source. Fails only where there is too little memory.
    pub fn of(heap: Global, source: &[u8]) -> anyhow::Result<Lines<'_>> {
        let mut starts = Vec::new(heap);
        starts.push(0)?;
        for (i, b) in source.iter().enumerate() {
            if *b == b'\n' {
                starts.push(i.saturating_add(1))?;
            }
        }
        Ok(Lines { source, starts })
    }

    /// Answers how many lines there are. The end of the source after a last line feed is not one.
    pub fn count(&self) -> usize {
        self.starts
            .as_slice()
            .partition_point(|start| *start < self.source.len())
    }

    /// Answers the line, counted from 1, on which an offset stands.
    pub fn at(&self, offset: usize) -> usize {
        self.starts
            .as_slice()
            .partition_point(|start| *start <= offset)
    }

    /// Answers the source from the beginning of a line on; lines are counted from 1.
    pub fn from(&self, line: usize) -> &[u8] {
        let before = line.saturating_sub(1);
        let start = self.starts.as_slice().get(before).copied().unwrap_or(0);
        self.source.get(start..).unwrap_or(self.source)
    }
}

/// Answers the bytes of a file. If it cannot be read, prints so and fails.
pub fn load(rt: &HostRuntime, path: &str) -> anyhow::Result<Vec<u8>> {
    match fs::read(rt, path) {
        Ok(bytes) => Ok(bytes),
        Err(_) => {
            println!(rt; "{path}: cannot be read")?;
            Err(anyhow!("a file cannot be read"))
        }
    }
}
