//! The bytes of a Start of Header, and of orders with an address.

ghost use Rattle.std.specs.Prelude.{◌≡◌, ◌∷◌, ◌++◌, ◌+◌, [], ℕ, length};
ghost use Rattle.ws_code.specs.Code.{IsUnfinished};
ghost use Rattle.ws_code.specs.Run.{reading, with_keep};
ghost use Rattle.ws_stream.specs.Elements.{element_rules, row_and_column};
ghost use Rattle.ws_stream.specs.Machine.{order_byte};
ghost use Rattle.ws_stream.specs.Taking.{GoesOnWithElement, Takes};

use super::Commands;
use super::phase::{Order, Phase};
use crate::order_code::{ERASE_TO_ADDRESS, REPEAT_TO_ADDRESS, START_OF_HEADER};
use crate::{Element, EraseList, SohBytes};
use ws_code::{Address, DataByte, End, Keep, ROWS, Reason, ShortList};

impl Commands {
    #[inline(always)]
    pub(super) fn soh_length<K: Keep<Element>>(&mut self, keep: &mut K, byte: u8) -> End
        requires { IsUnfinished element_rules self.old.place (START_OF_HEADER ∷ []) }
        ensures { Takes K.keeper (with_keep (reading self.old.place (START_OF_HEADER ∷ []))
            keep.old) byte (with_keep self.new keep.new) result }
    {
        if byte > 7 {
            return End::Bad(Reason::BadSohLength);
        }
        if byte == 0 {
            return self.complete(keep, Element::Soh(SohBytes::of(ShortList::new())));
        }
        self.bytes.clear();
        self.wait_for(Phase::SohByte(byte))
    }

    #[inline(always)]
    pub(super) fn soh_byte<K: Keep<Element>>(&mut self, keep: &mut K, count: u8, byte: u8) -> End
        requires phase { self.old.phase ≡ Phase.SohByte count }
        requires begun { IsUnfinished element_rules self.old.place
            (START_OF_HEADER ∷ count ∷ self.old.bytes) }
        ensures { Takes K.keeper
            (with_keep (reading self.old.place (START_OF_HEADER ∷ count ∷ self.old.bytes)) keep.old)
            byte (with_keep self.new keep.new) result }
    {
        if self.bytes.len() == 2 && byte != 0 {
            return End::Bad(Reason::Resequencing);
        }
        self.bytes.push(byte);
        if self.bytes.len() == count as usize {
            let bytes = std::mem::replace(&mut self.bytes, ShortList::new());
            return self.complete(keep, Element::Soh(SohBytes::of(bytes)));
        }
        End::More
    }

    #[inline(always)]
    pub(super) fn row(&mut self, order: Order, byte: u8) -> End
        requires { IsUnfinished element_rules self.old.place (order_byte order ∷ []) }
        ensures { GoesOnWithElement self.old.place (order_byte order ∷ []) byte self.new result }
    {
        if byte < 1 || byte > ROWS {
            return End::Bad(Reason::BadAddress);
        }
        self.wait_for(Phase::Column(order, byte))
    }

    #[inline(always)]
    pub(super) fn column<K: Keep<Element>>(
        &mut self,
        keep: &mut K,
        order: Order,
        row: u8,
        byte: u8,
    ) -> End
        requires { IsUnfinished element_rules self.old.place (order_byte order ∷ row ∷ []) }
        ensures { Takes K.keeper
            (with_keep (reading self.old.place (order_byte order ∷ row ∷ [])) keep.old) byte
            (with_keep self.new keep.new) result }
    {
        let to = match Address::new(row, byte) {
            Some(to) => to,
            None => return End::Bad(Reason::BadAddress),
        };
        match order {
            Order::Ra => self.wait_for(Phase::RepeatByte(to)),
            Order::Ea => self.wait_for(Phase::EraseLength(to)),
            Order::Sba => self.complete(keep, Element::Sba(to)),
            Order::Ic => self.complete(keep, Element::Ic(to)),
            Order::Mc => self.complete(keep, Element::Mc(to)),
        }
    }

    #[inline(always)]
    pub(super) fn repeat_byte<K: Keep<Element>>(
        &mut self,
        keep: &mut K,
        to: Address,
        byte: u8,
    ) -> End
        requires { IsUnfinished element_rules self.old.place
            (REPEAT_TO_ADDRESS ∷ row_and_column to) }
        ensures { Takes K.keeper
            (with_keep (reading self.old.place (REPEAT_TO_ADDRESS ∷ row_and_column to)) keep.old)
            byte (with_keep self.new keep.new) result }
    {
        match DataByte::new(byte) {
            Some(byte) => self.complete(keep, Element::Ra { to, byte }),
            None => End::Bad(Reason::BadRepeat),
        }
    }

    #[inline(always)]
    pub(super) fn erase_length(&mut self, to: Address, byte: u8) -> End
        requires { IsUnfinished element_rules self.old.place
            (ERASE_TO_ADDRESS ∷ row_and_column to) }
        ensures { GoesOnWithElement self.old.place
            (ERASE_TO_ADDRESS ∷ row_and_column to) byte self.new result }
    {
        if byte < 2 || byte > 5 {
            return End::Bad(Reason::BadEraseList);
        }
        self.kinds.clear();
        self.wait_for(Phase::EraseKind(to, byte - 1))
    }

    #[inline(always)]
    pub(super) fn erase_kind<K: Keep<Element>>(
        &mut self,
        keep: &mut K,
        to: Address,
        count: u8,
        byte: u8,
    ) -> End
        requires phase { self.old.phase ≡ Phase.EraseKind to count }
        requires begun { IsUnfinished element_rules self.old.place
            (ERASE_TO_ADDRESS ∷ row_and_column to ++ (count + 1) ∷ self.old.kinds) }
        ensures { Takes K.keeper (with_keep (reading self.old.place
            (ERASE_TO_ADDRESS ∷ row_and_column to ++ (count + 1) ∷ self.old.kinds)) keep.old)
            byte (with_keep self.new keep.new) result }
    {
        if byte != 0 && byte != 0xff {
            return End::Bad(Reason::BadEraseList);
        }
        self.kinds.push(byte);
        if self.kinds.len() == count as usize {
            let kinds = std::mem::replace(&mut self.kinds, ShortList::new());
            let kinds = EraseList::of(kinds);
            return self.complete(keep, Element::Ea { to, kinds });
        }
        End::More
    }
}
