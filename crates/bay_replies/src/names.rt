//! Lists of names (ISO 9506-2, GetNameList).

ghost use Rattle.std.specs.Prelude.{◌≡◌, ◌++◌, IfOk};
ghost use Rattle.std.specs.List.{list_any};
ghost use Rattle.std.specs.Str.{bytes_eq};
ghost use Rattle.sv_base.specs.declared.config.LnDef.{LnDef as LnLine};
ghost use Rattle.bay_replies.specs.Replied.{empty_if};

use crate::names_within;
use crate::replies::Replies;
use bay_model::{Names, Reply, Scope, object_classes, service_errors};
use name_order::{in_order, names_after};
use object_model::domains;
use std::alloc::{AllocError, Global};
use sv_base::{LnDef, Octs};

/// With an empty name in front, where there is one.
fn with_empty(alloc: Global, is_there: bool, names: Vec<Octs>) -> Result<Vec<Octs>, AllocError>
    ensures { IfOk result (λ v. v.items ≡ empty_if is_there ++ names.items) }
{
    let mut names = names;
    if is_there {
        names.insert(0, Octs::from_vec(Vec::new(alloc)))?;
    }
    Ok(names)
}

/// One of the logical nodes is of this domain.
fn has_domain(nodes: &[LnDef], domain: &[u8]) -> bool
    ensures { result ≡ list_any (λ (n : LnLine). bytes_eq n.domain domain.now) nodes.now }
{
    for node in nodes {
        if node.domain.as_slice() == domain {
            return true;
        }
    }
    false
}

impl<'a> Replies<'a> {
    ghost use Rattle.std.specs.Prelude.{◌≡◌, ◌≢◌, ◌<◌, ℕ, [], length, IfOk, option_copied};
    ghost use Rattle.std.specs.Option.{option_map};
    ghost use Rattle.bay_model.specs.Named.{configured_model};
    ghost use Rattle.bay_model.specs.NamedLines.{domains as domains_of};
    ghost use Rattle.bay_model.specs.Names.{is_unknown as is_unknown_scope, variables_of};
    ghost use Rattle.data_sets.specs.Books.{items_in, set_at};
    ghost use Rattle.bay_replies.specs.Replied.{listed, scoped, names_by};

    /// The scope is a domain that isn't there.
    #[tactic(auto, using(crate::proofs::DomainLaws::domain_is))]
    fn is_unknown(&self, scope: &Scope) -> bool
        ensures { result ≡ is_unknown_scope (configured_model self.entry.now.model.now) scope.now }
    {
        match scope {
            Scope::Domain(domain) => {
                !has_domain(self.model.config().nodes.as_slice(), domain.as_slice())
            }
            Scope::Vmd | Scope::Assoc => false,
        }
    }

    /// The domains above a name, or all of them.
    fn domains(&self, alloc: Global, after: Option<&Octs>) -> Result<Vec<Octs>, AllocError>
        ensures { IfOk result (λ v. v.items ≡ listed (option_copied after.entry)
            (domains_of self.entry.now.model.now)) }
    {
        let all = in_order(domains(alloc, self.model.config().nodes.as_slice())?)?;
        match after {
            Some(after) => names_after(alloc, &all, after.as_slice()),
            None => Ok(all),
        }
    }

    /// The variables of a domain above a name, or all of them.
    fn variables(
        &self,
        alloc: Global,
        domain: &[u8],
        after: Option<&Octs>,
    ) -> Result<Vec<Octs>, AllocError>
        ensures { IfOk result (λ v. v.items ≡ listed (option_copied after.entry)
            (variables_of (configured_model self.entry.now.model.now) domain.now)) }
    {
        match after {
            Some(after) => {
                let names = self.model.names_after(alloc, domain, after.as_slice())?;
                Ok(names.into_vec())
            }
            None => {
                let named = self.model.names_after(alloc, domain, &[])?;
                let has_empty = self.model.resolve(domain, &[]).is_some();
                with_empty(alloc, has_empty, named.into_vec())
            }
        }
    }

    /// The data sets of a domain above a name, or all of them.
    fn sets(
        &self,
        alloc: Global,
        domain: &[u8],
        after: Option<&Octs>,
    ) -> Result<Vec<Octs>, AllocError>
        requires { (k : ℕ) → k < length self.now.book.now.sets
            → (set_at self.now.book.now k).name.item ≢ [] }
        ensures { IfOk result (λ v. v.items ≡ listed (option_copied after.entry)
            (items_in domain.now self.entry.now.book.now.sets)) }
    {
        let above = match after {
            Some(after) => after.as_slice(),
            None => &[],
        };
        let names = self.book.names_after(alloc, domain, above)?;
        Ok(names.into_vec())
    }

    /// The names of a class in a scope, above a name, or all of them: of the server those of its domains; of a domain those of its
    /// variables or of its data sets; none of any other pair.
    fn names(
        &self,
        alloc: Global,
        class: u8,
        scope: &Scope,
        after: Option<&Octs>,
    ) -> Result<Vec<Octs>, AllocError>
        requires { (k : ℕ) → k < length self.now.book.now.sets
            → (set_at self.now.book.now k).name.item ≢ [] }
        ensures { IfOk result (λ v. v.items ≡ listed (option_copied after.entry)
            (scoped self.entry.now class scope.now)) }
    {
        match scope {
            Scope::Vmd if class == object_classes::DOMAIN => self.domains(alloc, after),
            Scope::Domain(domain) if class == object_classes::NAMED_VARIABLE => {
                self.variables(alloc, domain.as_slice(), after)
            }
            Scope::Domain(domain) if class == object_classes::NAMED_VARIABLE_LIST => {
                self.sets(alloc, domain.as_slice(), after)
            }
            _ => Ok(Vec::new(alloc)),
        }
    }

    /// The reply to GetNameList: as many of the names as a PDU of this size can hold, and one more.
    pub(crate) fn names_reply(
        &self,
        alloc: Global,
        size: u32,
        class: u8,
        scope: &Scope,
        after: Option<&Octs>,
    ) -> Result<Reply, AllocError>
        requires { (k : ℕ) → k < length self.now.book.now.sets
            → (set_at self.now.book.now k).name.item ≢ [] }
        ensures { IfOk result (λ r. r ≡ names_by self.entry.now size class scope.now
            (option_copied after.entry)) }
    {
        if self.is_unknown(scope) {
            return Ok(Reply::Error {
                class: service_errors::ACCESS,
                code: service_errors::OBJECT_NON_EXISTENT,
            });
        }
        let names = self.names(alloc, class, scope, after)?;
        let held = names_within(size, names)?;
        Ok(Reply::Names(Names::from_vec(held)))
    }
}
