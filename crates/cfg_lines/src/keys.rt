//! Octet rows, each once, and paths none of which is above another.

ghost use Rattle.std.specs.Prelude.{◌≡◌, ◌||◌, List, ℕ, OnOk};
ghost use Rattle.cfg_lines.specs.Keys.{added, is_among};
ghost use Rattle.cfg_lines.specs.Paths.{above};

use octet_rows::{Index, RowHash, hash_of};
use std::alloc::{AllocError, Global};
use std::marker::Model;

/// Octet rows, each once, seen by contracts as the list of them.
#[derive(Drop)]
pub struct Keys {
    rows: Index,
}

impl Model for Keys {
    ghost use Rattle.std.specs.Prelude.{List, ℕ};

    ghost Value = { List (List ℕ) };

    ghost view = { λ k. k.rows };
}

impl Keys {
    ghost use Rattle.std.specs.Prelude.{◌≡◌, ◌||◌, ◌++◌, ◌∷◌, List, ℕ, [], IfOk, OnOk};
    ghost use Rattle.std.specs.Str.{bytes_eq};
    ghost use Rattle.octet_rows.specs.Hashing.{hash_at};
    ghost use Rattle.cfg_lines.specs.Keys.{is_among, added};

    /// There is none.
    pub fn new(alloc: Global) -> Keys
        ensures { result ≡ [] }
    {
        Keys {
            rows: Index::new(alloc),
        }
    }

    /// There is none, and memory for that many, with that many octets together.
    fn with_capacity(alloc: Global, keys: usize, octets: usize) -> Result<Keys, AllocError>
        ensures { IfOk result (λ k. k ≡ []) }
    {
        Ok(Keys {
            rows: Index::with_capacity(alloc, keys, octets)?,
        })
    }

    /// The key is there.
    pub fn has(&self, key: &[u8]) -> bool
        ensures { result ≡ is_among self.now key.now }
    {
        self.has_by(hash_of(key), key)
    }

    /// The key of this number is there.
    fn has_by(&self, hash: u64, key: &[u8]) -> bool
        requires { hash ≡ hash_at key.now }
        ensures { result ≡ is_among self.now key.now }
    {
        self.rows.place_by(hash, key).is_some()
    }

    /// Adds a key, which may be there already.
    pub fn add(&mut self, key: &[u8]) -> Result<(), AllocError>
        ensures among { OnOk result ((q : List ℕ)
            → is_among self.new q ≡ (bytes_eq q key.now || is_among self.old q)) }
        ensures items { OnOk result (self.new ≡ added self.old key.now) }
    {
        self.add_by(hash_of(key), key)
    }

    /// Adds the key of this number, which may be there already.
    fn add_by(&mut self, hash: u64, key: &[u8]) -> Result<(), AllocError>
        requires { hash ≡ hash_at key.now }
        ensures among { OnOk result ((q : List ℕ)
            → is_among self.new q ≡ (bytes_eq q key.now || is_among self.old q)) }
        ensures items { OnOk result (self.new ≡ added self.old key.now) }
    {
        if self.has_by(hash, key) {
            return Ok(());
        }
        self.rows.push_by(hash, key)
    }
}

impl Keys {
    ghost use Rattle.std.specs.Prelude.{◌≡◌, ◌||◌, List, ℕ, None, Some, OnOk, IfOk, if◌then◌else◌};
    ghost use Rattle.std.specs.List.{list_any};
    ghost use Rattle.octet_rows.specs.Hashing.{hash_at};
    ghost use Rattle.cfg_lines.specs.Keys.{is_among};
    ghost use Rattle.cfg_lines.specs.Paths.{above};

    /// The number of a path; none exactly where a structure above it is there.
    fn number_of_free(&self, path: &[u8]) -> Option<u64>
        ensures { result ≡ (if list_any (λ front. is_among self.now front) (above path.now)
            then None else Some (hash_at path.now)) }
    {
        let mut hash = RowHash::new();
        for (i, octet) in path.iter().enumerate() {
            if *octet == b'$' && self.has_by(hash.number(), &path[..i]) {
                return None;
            }
            hash = hash.with(*octet);
        }
        Some(hash.number())
    }

    /// The path, or a structure above it, is there.
    pub fn has_or_above(&self, path: &[u8]) -> bool
        ensures { result ≡ (is_among self.now path.now || list_any
            (λ front. is_among self.now front) (above path.now)) }
    {
        match self.number_of_free(path) {
            Some(hash) => self.has_by(hash, path),
            None => true,
        }
    }

    /// Adds the structures above a path, and gives the path's number.
    fn add_above(&mut self, path: &[u8]) -> Result<u64, AllocError>
        ensures number { IfOk result (λ hash. hash ≡ hash_at path.now) }
        ensures among { OnOk result ((q : List ℕ)
            → is_among self.new q ≡ (is_among (above path.now) q || is_among self.old q)) }
    {
        let mut hash = RowHash::new();
        for (i, octet) in path.iter().enumerate() {
            if *octet == b'$' {
                self.add_by(hash.number(), &path[..i])?;
            }
            hash = hash.with(*octet);
        }
        Ok(hash.number())
    }
}

impl Keys {
    ghost use Rattle.std.specs.Prelude.{◌≡◌, ◌||◌, List, ℕ, map, OnOk};
    ghost use Rattle.std.specs.Str.{bytes_eq};
    ghost use Rattle.cfg_lines.specs.Keys.{is_among, octets_of};
    ghost use Rattle.cfg_lines.specs.Paths.{above};

    /// Adds a path and the structures above it.
    pub fn add_with_above(&mut self, path: &[u8]) -> Result<(), AllocError>
        ensures { OnOk result ((q : List ℕ)
            → is_among self.new q ≡ ((bytes_eq q path.now || is_among (above path.now) q)
            || is_among self.old q)) }
    {
        let hash = self.add_above(path)?;
        self.add_by(hash, path)
    }
}

/// Adds a path to the paths, and the structures above it to the structures.
fn add_path(paths: &mut Keys, structures: &mut Keys, path: &[u8]) -> Result<(), AllocError>
    ensures structures { OnOk result ((q : List ℕ)
        → is_among structures.new q ≡ (is_among (above path.now) q || is_among structures.old q)) }
    ensures paths { OnOk result (paths.new ≡ added paths.old path.now) }
{
    let hash = structures.add_above(path)?;
    paths.add_by(hash, path)
}

/// The paths that are taken, and the structures above them; seen by contracts as the list of the paths.
#[derive(Drop)]
pub struct Names {
    paths: Keys,
    structures: Keys,
}

impl Model for Names {
    ghost use Rattle.std.specs.Prelude.{◌≡◌, List, ℕ};
    ghost use Rattle.cfg_lines.specs.Keys.{is_among};
    ghost use Rattle.cfg_lines.specs.Paths.{is_structure};

    ghost Value = { List (List ℕ) };

    ghost view = { λ n. n.paths };

    ghost invariant = { λ n. (q : List ℕ) → is_among n.structures q ≡ is_structure n.paths q };
}

impl Names {
    ghost use Rattle.std.specs.Prelude.{◌≡◌, ◌||◌, List, ℕ, [], IfOk, OnOk};
    ghost use Rattle.std.specs.Prelude.{map};
    ghost use Rattle.std.specs.List.{list_any};
    ghost use Rattle.cfg_lines.specs.Keys.{octets_of};
    ghost use Rattle.cfg_lines.specs.Paths.{clashes, is_taken as is_taken_by};

    /// None is taken.
    pub fn new(alloc: Global) -> Names
        ensures { result ≡ [] }
    {
        Names {
            paths: Keys::new(alloc),
            structures: Keys::new(alloc),
        }
    }

    /// None is taken, and there is capacity for that many, with that many octets together.
    pub fn with_capacity(alloc: Global, names: usize, octets: usize) -> Result<Names, AllocError>
        ensures { IfOk result (λ n. n ≡ []) }
    {
        Ok(Names {
            paths: Keys::with_capacity(alloc, names, octets)?,
            structures: Keys::with_capacity(alloc, names, octets)?,
        })
    }

    /// The path, or one that it has as a structure above it or below it, is taken.
    pub fn is_taken(&self, path: &[u8]) -> bool
        ensures { result ≡ is_taken_by self.now path.now }
    {
        match self.paths.number_of_free(path) {
            Some(hash) => self.paths.has_by(hash, path) || self.structures.has_by(hash, path),
            None => true,
        }
    }

    /// One more path is taken from now on. Without memory none is any longer.
    pub fn add(&mut self, alloc: Global, path: &[u8]) -> Result<(), AllocError>
        ensures { OnOk result ((q : List ℕ)
            → is_taken_by self.new q ≡ (clashes q path.now || is_taken_by self.old q)) }
    {
        let Ok(()) = add_path(&mut self.paths, &mut self.structures, path) else {
            *self = Names::new(alloc);
            return Err(AllocError);
        };
        Ok(())
    }

    /// More paths are taken. Without memory none is any longer.
    pub fn add_all(&mut self, alloc: Global, paths: &[Vec<u8>]) -> Result<(), AllocError>
        ensures { OnOk result ((q : List ℕ)
            → is_taken_by self.new q ≡ (is_taken_by (map octets_of paths.now) q
            || is_taken_by self.old q)) }
    {
        for path in paths {
            self.add(alloc, path)?;
        }
        Ok(())
    }

    /// One of the paths can't stand beside those that are taken.
    pub fn is_one_taken(&self, paths: &[Vec<u8>]) -> bool
        ensures { result ≡ list_any (λ path. is_taken_by self.now path) (map octets_of paths.now) }
    {
        for path in paths {
            if self.is_taken(path) {
                return true;
            }
        }
        false
    }
}
