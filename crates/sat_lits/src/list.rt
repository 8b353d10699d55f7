ghost use Rattle.std.specs.Prelude.{◌≡◌, [], ◌∷◌, ◌++◌, take, map, IfOk, OnOk, OnErr};
ghost use Rattle.sat_lits.specs.Meaning.{negated};

use crate::literal::Lit;
use std::alloc::{AllocError, AllocFailed, Global};
use std::marker::Model;

/// Memory ran out.
#[derive(Clone, Copy, Debug, PartialEq, Eq)]
pub struct NoMemory;

impl From<AllocError> for NoMemory {
    fn from(_error: AllocError) -> NoMemory {
        NoMemory
    }
}

impl<T: Drop> From<AllocFailed<T>> for NoMemory {
    fn from(_error: AllocFailed<T>) -> NoMemory {
        NoMemory
    }
}

/// A vector of plain values that contracts see as the list of its elements, so that a copy equals
/// what it copies.
#[derive(Debug, Drop)]
pub struct List<T: Copy> {
    items: Vec<T>,
}

impl<T: Copy> Model for List<T> {
    ghost use Rattle.std.specs.Prelude.{List};
    ghost use Rattle.std.specs.Coded.{coded_list};

    ghost Value = { List T };

    ghost coded = { coded_list T.code };

    ghost view = { λ list. list.items.items };
}

impl<T: Copy> List<T> {
    /// The empty list. It takes no memory.
    pub fn new(alloc: Global) -> List<T>
        ensures { result ≡ [] }
    {
        List {
            items: Vec::new(alloc),
        }
    }

    /// The elements of a slice, in order. The only error is want of memory.
    pub fn from_slice(alloc: Global, from: &[T]) -> Result<List<T>, NoMemory>
        ensures { IfOk result (λ list. list ≡ from.now) }
    {
        Ok(List {
            items: Vec::from_slice(alloc, from)?,
        })
    }

    /// Appends a value. For want of memory the list stays as it was.
    pub fn push(&mut self, value: T) -> Result<(), NoMemory>
        ensures ok { OnOk result (self.new ≡ self.old ++ value ∷ []) }
        ensures err { OnErr result (self.new ≡ self.old) }
    {
        self.items.push(value)?;
        Ok(())
    }

    /// Appends the elements of a slice, in order. For want of memory the list stays as it was.
    pub fn extend_from_slice(&mut self, more: &[T]) -> Result<(), NoMemory>
        ensures ok { OnOk result (self.new ≡ self.old ++ more.now) }
        ensures err { OnErr result (self.new ≡ self.old) }
    {
        self.items.extend_from_slice(more)?;
        Ok(())
    }

    /// An equal list. The only error is want of memory.
    pub fn copy(&self) -> Result<List<T>, NoMemory>
        ensures { IfOk result (λ list. list ≡ self.now) }
    {
        Ok(List {
            items: Vec::from_slice(*self.items.allocator(), &self.items)?,
        })
    }

    /// Keeps the first `keep` elements, or all where there are fewer.
    pub fn truncate(&mut self, keep: usize)
        ensures { self.new ≡ take keep self.old }
    {
        self.items.truncate(keep);
    }

    /// The elements, in order.
    pub fn as_slice(&self) -> &[T]
        ensures { result.now ≡ self.now }
    {
        &self.items
    }

    /// The allocator that the list grows by.
    pub fn allocator(&self) -> Global {
        *self.items.allocator()
    }

    /// Removes all elements.
    pub fn clear(&mut self)
        ensures { self.new ≡ [] }
    {
        self.items.clear();
    }
}

impl List<Lit> {
    /// Turns the sign of each literal.
    pub fn negate(&mut self)
        ensures { self.new ≡ map negated self.old }
    {
        for lit in self.items.iter_mut() {
            *lit = lit.negated();
        }
    }
}

#[cfg(test)]
mod tests {
    use super::*;
    use std::test::Fail;

    #[test]
    fn a_copy_has_the_same_elements(rt: HostRuntime) -> Result<(), Fail> {
        let mut list = List::from_slice(rt.alloc(), &[7, 8])?;
        list.push(9)?;
        let copy = list.copy()?;
        for each in [&list, &copy] {
            assert_eq!(rt; each.as_slice(), [7, 8, 9].as_slice());
        }
        Ok(())
    }

    #[test]
    fn a_list_grows_and_shrinks(rt: HostRuntime) -> Result<(), Fail> {
        let mut list = List::new(rt.alloc());
        list.extend_from_slice(b"shared")?;
        list.truncate(9);
        assert_eq!(rt; list.as_slice(), b"shared".as_slice());
        list.truncate(5);
        assert_eq!(rt; list.as_slice(), b"share".as_slice());
        list.clear();
        assert_eq!(rt; list.as_slice(), b"".as_slice());
        let other = List::<u8>::new(list.allocator());
        assert_eq!(rt; other.as_slice(), list.as_slice());
        Ok(())
    }
}
