// Attributes of elements, and the bases that they declare (XML Base; XML Catalogs 1.1, 6.4).

use crate::catalog::CatalogBase;
use rn_xml::{NO_NAMESPACE, XML_NAMESPACE, XmlAttribute, XmlDocument, XmlElement};
use std::alloc::{AllocError, Global};

/// The attribute of an element that has this name in the namespace with this index.
fn attribute_in<'d, 'a>(
    document: &'d XmlDocument<'a>,
    element: &XmlElement<'a>,
    uri: usize,
    local: &str,
) -> Option<&'d XmlAttribute<'a>> {
    document
        .attributes_of(element)
        .iter()
        .find(|it| it.name.uri == uri && it.name.local == local)
}

/// The attribute of an element that has this name and no namespace.
pub(crate) fn attribute<'d, 'a>(
    document: &'d XmlDocument<'a>,
    element: &XmlElement<'a>,
    local: &str,
) -> Option<&'d XmlAttribute<'a>> {
    attribute_in(document, element, NO_NAMESPACE, local)
}

/// The number of the base of an element, where `outer` is that of the one around it. Its own is added. An empty one is
/// the base around it (RFC 3986, section 5.2.2).
pub(crate) fn base_of<'a>(
    alloc: Global,
    document: &XmlDocument<'a>,
    element: &XmlElement<'a>,
    outer: Option<usize>,
    bases: &mut Vec<CatalogBase>,
) -> Result<Option<usize>, AllocError> {
    match attribute_in(document, element, XML_NAMESPACE, "base") {
        Some(attribute) if !attribute.value.is_empty() => {
            let reference = String::from_str(alloc, attribute.value.as_str())?;
            bases.push(CatalogBase { outer, reference })?;
            Ok(Some(bases.len() - 1))
        }
        _ => Ok(outer),
    }
}
