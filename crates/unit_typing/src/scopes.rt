//! What is in force at a place of a unit (ISO 9899:1990, 6.1.2.1 to 6.1.2.3): names, tags, and the structures and unions so far.

ghost use Rattle.std.specs.Prelude.{◌≡◌, [], drop, length, map, IfOk, MatchResult};
ghost use Rattle.std.specs.Option.{option_map};
ghost use Rattle.type_rules.specs.Moves.{given_to};
ghost use Rattle.type_rules.specs.Scopes.{at_start, latest, latest_tag, member_of, is_among, with_name, with_member, deeper, body_of};
ghost use Rattle.type_rules.specs.Tags.{with_tag};
ghost use Rattle.unit_typing.specs.Scopes.{IsMark, back_to, back_with_formals, completed, with_tag_of, with_members, scopes_of};
ghost use Rattle.unit_typing.specs.Views.{name_entry, tag_entry, member_entry};

use crate::entries::Entries;
use crate::members::{MemberEntry, Members};
use crate::names::NameEntry;
use crate::number_stack::NumberStack;
use crate::structs::Structs;
use crate::tags::TagEntry;
use std::alloc::{AllocError, Global};

/// What was in force where a scope began.
#[derive(Clone, Copy)]
pub struct Mark {
    names: usize,
    tags: usize,
    depth: u32,
}

/// The names and tags in force, the innermost and latest last, and the structures and unions so far. A look-up takes constant
/// time, and the end of a scope the time of what it declared.
#[derive(Drop)]
pub struct Scopes<'a> {
    names: Entries<NameEntry<'a>>,
    tags: Entries<TagEntry>,

    // The depth of the scope.
    depth: u32,

    // The tag of each structure and union, by its number.
    structs: Structs,

    // The numbers of those that are complete.
    complete: NumberStack,

    members: Members<'a>,

    // What a function's parameters declare, between them and its body.
    formal_names: Vec<NameEntry<'a>>,
    formal_tags: Vec<TagEntry>,
}

impl<'a> Scopes<'a> {
    /// At the beginning of a unit, at file scope.
    pub fn new(alloc: Global) -> Self
        ensures { scopes_of result ≡ at_start }
    {
        Scopes {
            names: Entries::new(alloc),
            tags: Entries::new(alloc),
            depth: 0,
            structs: Structs::new(alloc),
            complete: NumberStack::new(alloc),
            members: Members::new(alloc),
            formal_names: Vec::new(alloc),
            formal_tags: Vec::new(alloc),
        }
    }

    /// The depth of the scope; 0 at file scope.
    pub fn depth(&self) -> u32
        ensures { result ≡ (scopes_of self.now).depth }
    {
        self.depth
    }

    /// The number that the next structure or union gets.
    pub fn next_number(&self) -> u32
        ensures { result ≡ length (scopes_of self.now).structs }
    {
        self.structs.next_number()
    }

    /// The declaration of a name that is in force.
    pub fn latest(&self, name: u32) -> Option<NameEntry<'a>>
        ensures { option_map name_entry result ≡ latest name (scopes_of self.now).names }
    {
        self.names.latest(name)
    }

    /// The declaration of a tag that is in force.
    pub fn latest_tag(&self, name: u32) -> Option<TagEntry>
        ensures { option_map tag_entry result ≡ latest_tag name (scopes_of self.now).tags }
    {
        self.tags.latest(name)
    }

    /// The member of a structure or union with a name.
    pub fn member_of(&self, owner: u32, name: u32) -> Option<MemberEntry<'a>>
        ensures { option_map member_entry result ≡ member_of owner name (scopes_of self.now).members }
    {
        self.members.first_named(owner, name)
    }

    /// The number of names that are in force or hidden.
    pub fn count_names(&self) -> usize
        ensures { result ≡ length (scopes_of self.now).names }
    {
        self.names.len()
    }

    /// The names that were declared behind the first `count`.
    pub fn names_behind(&self, count: usize) -> &[NameEntry<'a>]
        ensures { map name_entry result.now ≡ drop count (scopes_of self.now).names }
    {
        self.names.behind(count)
    }

    /// A list of members without any.
    pub fn no_members(&self) -> Vec<MemberEntry<'a>>
        ensures { result.items ≡ [] }
    {
        self.members.none()
    }

    /// The members of a structure or union, as members of another.
    pub fn given_to(&self, owner: u32, number: u32) -> Result<Vec<MemberEntry<'a>>, AllocError>
        ensures { IfOk result (λ found. map member_entry found.items ≡ given_to owner number (scopes_of self.now).members) }
    {
        let found = self.members.given_to(owner, number)?;
        Ok(found)
    }

    /// Whether a structure or union is complete.
    pub fn is_complete(&self, number: u32) -> bool
        ensures { result ≡ is_among number (scopes_of self.now).complete }
    {
        self.complete.position(number).is_some()
    }

    /// Puts a name in force.
    pub fn add_name(&mut self, entry: NameEntry<'a>) -> Result<(), AllocError>
        ensures { MatchResult result (λ _. scopes_of self.new ≡ with_name (scopes_of self.old) (name_entry entry.entry)) (λ _. scopes_of self.new ≡ scopes_of self.old) }
    {
        self.names.push(entry)
    }

    /// Puts a tag in force.
    pub fn add_tag(&mut self, entry: TagEntry) -> Result<(), AllocError>
        ensures { MatchResult result (λ _. scopes_of self.new ≡ with_tag (scopes_of self.old) (tag_entry entry)) (λ _. scopes_of self.new ≡ scopes_of self.old) }
    {
        self.tags.push(entry)
    }

    /// Counts a structure or union with this tag. More than 2^32 of them count as out of memory.
    pub fn add_struct(&mut self, tag: Option<u32>) -> Result<(), AllocError>
        ensures { MatchResult result (λ _. scopes_of self.new ≡ with_tag_of (scopes_of self.old) tag) (λ _. scopes_of self.new ≡ scopes_of self.old) }
    {
        self.structs.push(tag)
    }

    /// Adds a member of a structure or union.
    pub fn add_member(&mut self, member: MemberEntry<'a>) -> Result<(), AllocError>
        ensures { MatchResult result (λ _. scopes_of self.new ≡ with_member (scopes_of self.old) (member_entry member.entry)) (λ _. scopes_of self.new ≡ scopes_of self.old) }
    {
        self.members.push(member)
    }

    /// Adds members of structures or unions.
    pub fn add_members(&mut self, members: &[MemberEntry<'a>]) -> Result<(), AllocError>
        ensures { IfOk result (λ _. scopes_of self.new ≡ with_members (scopes_of self.old) (map member_entry members.now)) }
    {
        for member in members {
            self.add_member(*member)?;
        }
        Ok(())
    }

    /// Makes a structure or union complete.
    pub fn complete(&mut self, number: u32) -> Result<(), AllocError>
        ensures { MatchResult result (λ _. scopes_of self.new ≡ completed (scopes_of self.old) number) (λ _. scopes_of self.new ≡ scopes_of self.old) }
    {
        self.complete.push(number)
    }

    /// What is in force here.
    fn mark(&self) -> Mark
        ensures { IsMark result (scopes_of self.now) }
    {
        Mark {
            names: self.names.len(),
            tags: self.tags.len(),
            depth: self.depth,
        }
    }

    /// Begins a scope in this one. More than 2^32 nested scopes count as out of memory.
    pub fn enter(&mut self) -> Result<Mark, AllocError>
        ensures mark { IfOk result (λ mark. IsMark mark (scopes_of self.old)) }
        ensures scopes { MatchResult result (λ _. scopes_of self.new ≡ deeper (scopes_of self.old)) (λ _. scopes_of self.new ≡ scopes_of self.old) }
    {
        if self.depth == 4_294_967_295 {
            return Err(AllocError);
        }
        let mark = self.mark();
        self.depth += 1;
        Ok(mark)
    }

    /// Begins the scope of a function's body, in which its parameters are in force.
    pub fn enter_body(&mut self) -> Result<Mark, AllocError>
        ensures mark { IfOk result (λ mark. IsMark mark (scopes_of self.old)) }
        ensures scopes { IfOk result (λ _. scopes_of self.new ≡ body_of (scopes_of self.old)) }
    {
        let mark = self.enter()?;
        self.names.push_all(&self.formal_names)?;
        self.tags.push_all(&self.formal_tags)?;
        self.formal_names.clear();
        self.formal_tags.clear();
        Ok(mark)
    }

    /// Ends a scope: what it declared is no longer in force, and what that hid is again. Structures and unions stay.
    pub fn leave(&mut self, mark: Mark)
        ensures { scopes_of self.new ≡ back_to mark (scopes_of self.old) }
    {
        self.names.cut(mark.names);
        self.tags.cut(mark.tags);
        self.depth = mark.depth;
    }

    /// Ends the scope of a function's parameters, and keeps what they declare for its body.
    pub fn leave_formals(&mut self, mark: Mark) -> Result<(), AllocError>
        ensures { IfOk result (λ _. scopes_of self.new ≡ back_with_formals mark (scopes_of self.old)) }
    {
        self.names.copy_behind(mark.names, &mut self.formal_names)?;
        self.tags.copy_behind(mark.tags, &mut self.formal_tags)?;
        self.leave(mark);
        Ok(())
    }

    /// The tags of the structures and unions, by their numbers.
    pub fn into_tags(self) -> Vec<Option<u32>>
        ensures { result.items ≡ (scopes_of self.entry).structs }
    {
        self.structs.into_tags()
    }
}
