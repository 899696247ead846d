//! The bytes of a Start of Field: format word, control words, attribute, length.

ghost use Rattle.std.specs.Prelude.{◌≡◌, ◌∷◌, ◌++◌, [], ℕ, true, nat_le};
ghost use Rattle.ws_code.specs.Code.{IsUnfinished};
ghost use Rattle.ws_code.specs.Run.{reading, with_keep};
ghost use Rattle.ws_stream.specs.Elements.{element_rules};
ghost use Rattle.ws_stream.specs.FieldOrder.{is_attribute};
ghost use Rattle.ws_stream.specs.Machine.{words_bytes, front_bytes, are_words, is_front};
ghost use Rattle.ws_stream.specs.Taking.{GoesOnWithElement, Takes};

use super::Commands;
use super::phase::Phase;
use crate::order_code::START_OF_FIELD;
use crate::{Element, FieldStart};
use ws_code::{End, Ffw, Keep, Reason, ShortList, word};

impl Commands {
    #[inline(always)]
    pub(super) fn field_first(&mut self, byte: u8) -> End
        requires { IsUnfinished element_rules self.old.place (START_OF_FIELD ∷ []) }
        ensures { GoesOnWithElement self.old.place (START_OF_FIELD ∷ []) byte self.new result }
    {
        match byte {
            0x20..=0x3f => self.wait_for(Phase::LengthHigh(None, byte)),
            0x40..=0x7f => {
                if Ffw::new(u16::from(byte) * 256).is_none() {
                    return End::Bad(Reason::LeftOutShift);
                }
                self.wait_for(Phase::FormatLow(byte))
            }
            _ => End::Bad(Reason::BadFormatByte),
        }
    }

    #[inline(always)]
    pub(super) fn format_low(&mut self, high: u8, byte: u8) -> End
        requires format { nat_le 0x40 high ≡ true }
        requires begun { IsUnfinished element_rules self.old.place (START_OF_FIELD ∷ high ∷ []) }
        ensures { GoesOnWithElement self.old.place
            (START_OF_FIELD ∷ high ∷ []) byte self.new result }
    {
        match Ffw::new(word(high, byte)) {
            Some(format) => {
                self.controls.clear();
                self.wait_for(Phase::FieldNext(format))
            }
            // Never reached: the shift lies in the first byte, which was judged.
            None => End::Bad(Reason::LeftOutShift),
        }
    }

    #[inline(always)]
    pub(super) fn field_next(&mut self, format: Ffw, byte: u8) -> End
        requires words { are_words format self.old.controls ≡ true }
        requires begun { IsUnfinished element_rules self.old.place
            (START_OF_FIELD ∷ words_bytes format self.old.controls) }
        ensures { GoesOnWithElement self.old.place
            (START_OF_FIELD ∷ words_bytes format self.old.controls) byte self.new result }
    {
        match byte {
            0x20..=0x3f => self.wait_for(Phase::LengthHigh(Some(format), byte)),
            0x80..=0xff => {
                if self.controls.is_full() {
                    return End::Bad(Reason::TooManyFcws);
                }
                self.wait_for(Phase::ControlLow(format, byte))
            }
            _ => End::Bad(Reason::BadFormatByte),
        }
    }

    #[inline(always)]
    pub(super) fn control_low(&mut self, format: Ffw, high: u8, byte: u8) -> End
        requires phase { self.old.phase ≡ Phase.ControlLow format high }
        requires words { are_words format self.old.controls ≡ true }
        requires control { nat_le 0x80 high ≡ true }
        requires begun { IsUnfinished element_rules self.old.place
            (START_OF_FIELD ∷ words_bytes format self.old.controls ++ high ∷ []) }
        ensures { GoesOnWithElement self.old.place
            (START_OF_FIELD ∷ words_bytes format self.old.controls ++ high ∷ []) byte self.new
            result }
    {
        self.controls.push(word(high, byte));
        self.wait_for(Phase::FieldNext(format))
    }

    #[inline(always)]
    pub(super) fn length_high(&mut self, format: Option<Ffw>, attribute: u8, byte: u8) -> End
        requires front { is_front format self.old.controls ≡ true }
        requires attribute { is_attribute attribute ≡ true }
        requires begun { IsUnfinished element_rules self.old.place
            (START_OF_FIELD ∷ front_bytes format self.old.controls ++ attribute ∷ []) }
        ensures { GoesOnWithElement self.old.place
            (START_OF_FIELD ∷ front_bytes format self.old.controls ++ attribute ∷ []) byte self.new
            result }
    {
        self.wait_for(Phase::LengthLow(format, attribute, byte))
    }

    #[inline(always)]
    pub(super) fn length_low<K: Keep<Element>>(
        &mut self,
        keep: &mut K,
        format: Option<Ffw>,
        attribute: u8,
        high: u8,
        byte: u8,
    ) -> End
        requires front { is_front format self.old.controls ≡ true }
        requires attribute { is_attribute attribute ≡ true }
        requires begun { IsUnfinished element_rules self.old.place
            (START_OF_FIELD ∷ front_bytes format self.old.controls ++ attribute ∷ high ∷ []) }
        ensures { Takes K.keeper (with_keep (reading self.old.place
            (START_OF_FIELD ∷ front_bytes format self.old.controls ++ attribute ∷ high ∷ []))
            keep.old) byte (with_keep self.new keep.new) result }
    {
        let controls = match format {
            Some(_) => std::mem::replace(&mut self.controls, ShortList::new()),
            None => ShortList::new(),
        };
        let length = word(high, byte);
        let field = FieldStart::of(format, controls, attribute, length);
        self.complete(keep, Element::Sf(field))
    }
}
